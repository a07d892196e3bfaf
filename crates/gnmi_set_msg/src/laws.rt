// Where there is an ask there is a reply, and what is written is found in it.
ghost use Rattle.std.specs.Prelude.{◌≡◌, ◌↔◌, ◌<◌, ◌^◌, ℕ, List, Some, None, length};
ghost use Rattle.gnmi_set_msg.specs.declared.request.SetRequest.{SetRequest as Request};
ghost use Rattle.gnmi_set_msg.specs.Asks.{set_of};
ghost use Rattle.gnmi_set_msg.specs.ReadBack.{reply_in, written_reply};
ghost use Rattle.gnmi_set_msg.specs.Replies.{reply_of};
ghost use Rattle.gnmi_set_msg.specs.Requests.{request_of};

/// Octets have no reply exactly where they ask for nothing that can be read.
pub fn replied_where_read()
    ensures { (octets : List ℕ) (stamp : ℕ) → set_of octets ≡ None ↔ reply_of octets stamp ≡ None }
{}

/// The octets of a reply, fewer than 2^64, are read as just what the request is answered with: its prefix where it has one; for
/// each delete, then each replace, then each update a result with its path and its operation; and the stamp.
pub fn set_replies_read_back()
    ensures { (octets reply : List ℕ) (stamp : ℕ) → stamp < 2 ^ 64
        → reply_of octets stamp ≡ Some reply → length reply < 2 ^ 64
        → (request : Request) × (request_of octets ≡ Some request)
        × (reply_in reply ≡ Some (written_reply stamp request)) }
{}
