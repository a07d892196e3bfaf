// What is written is read as itself.
ghost use Rattle.std.specs.Prelude.{◌≡◌, Some};
ghost use Rattle.base_kinds.specs.declared.request.Action.{Action as CommitAction};
ghost use Rattle.gnmi_ext_msg.specs.Commits.{commit_of};
ghost use Rattle.gnmi_ext_msg.specs.ReadBack.{IsWritable};
ghost use Rattle.gnmi_ext_msg.specs.Writing.{commit_message};

/// The octets of a Commit are read as the action that they are written for.
pub fn commits_read_back()
    ensures { (action : CommitAction) → IsWritable action → commit_of (commit_message action)
        ≡ Some action }
{}
