// The reply to a Get over the rows that were found.
ghost use Rattle.std.specs.Prelude.{◌≡◌, ◌⊎◌, ◌≤◌, ◌++◌, ◌∷◌, [], length, map, IfOk, IfErr, OnOk};
ghost use Rattle.std.specs.List.{list_any};
ghost use Rattle.base_lists.specs.Results.{IsUnlessMemory};
ghost use Rattle.base_kinds.specs.Events.{is_empty_part};
ghost use Rattle.base_kinds.specs.Parts.{is_covered};
ghost use Rattle.gnmi_get_msg.specs.Replies.{get_reply};
ghost use Rattle.request_desk.specs.Gets.{notes_of, within_limit, reply_over};
ghost use Rattle.request_desk.specs.Limits.{most_reply_octets};
ghost use Rattle.request_desk.specs.Notes.{note_of_path};

use crate::limits::MOST_REPLY_OCTETS;
use crate::notes::{is_covered, note_of_path};
use base_kinds::{Path, Paths, Refusal, Row, View};
use base_lists::{Bytes, NoMemory};
use gnmi_get_msg::write_get_reply;
use gnmi_kinds::GetAsk;
use schema_core::Schema;
use std::alloc::Global;

/// Whether the path covers some of the rows.
fn is_row_covered(rows: &[Row], path: &Path) -> bool
    ensures { result ≡ list_any (λ row. is_covered (path.now ∷ []) row.path) rows.now }
{
    rows.iter().any(|row| is_covered(path, row))
}

fn is_empty_part(rows: &[Row], path: &Path) -> bool
    ensures { result ≡ is_empty_part rows.now path.now }
{
    !is_row_covered(rows, path)
}

/// Whether some path covers none of the rows.
fn has_empty_part(rows: &[Row], paths: &[Path]) -> bool
    ensures { result ≡ list_any (is_empty_part rows.now) paths.now }
{
    paths.iter().any(|path| is_empty_part(rows, path))
}

/// Adds the Notification of a path to the reply. What was added before memory ran out stays.
fn put_note(
    alloc: Global,
    schema: &Schema,
    ask: &GetAsk,
    view: &View,
    path: &Path,
    reply: &mut Bytes,
) -> Result<(), NoMemory>
    ensures { OnOk result (reply.new ≡ reply.old ++ get_reply
        (note_of_path schema.now ask.now view.now.stamp view.now.rows path.now ∷ [])) }
{
    let note = note_of_path(alloc, schema, ask, view, path)?;
    write_get_reply(alloc, &[note], reply)
}

/// The reply of the Notifications of these paths. It is given up once it is too long.
#[tactic(auto, using(crate::proofs::Replying::one_note, crate::proofs::Replying::too_long, crate::proofs::Replying::short_enough))]
fn reply_of_notes(
    alloc: Global,
    schema: &Schema,
    ask: &GetAsk,
    view: &View,
    paths: &[Path],
) -> Result<Bytes, Refusal>
    ensures answer { IsUnlessMemory Refusal.NoMemory result (within_limit (get_reply
        (notes_of schema.now ask.now paths.now view.now.stamp view.now.rows))) }
    ensures within { IfOk result (λ reply. length reply ≤ most_reply_octets) }
    ensures causes { IfErr result
        (λ refusal. (refusal ≡ Refusal.TooLarge) ⊎ (refusal ≡ Refusal.NoMemory)) }
{
    let mut reply = Bytes::empty(alloc);
    for path in paths {
        put_note(alloc, schema, ask, view, path, &mut reply)?;
        if reply.len() > MOST_REPLY_OCTETS {
            return Err(Refusal::TooLarge);
        }
    }
    Ok(reply)
}

/// The reply to what is asked, over the view of the paths.
#[tactic(auto, unfolding(crate::specs::Gets::reply_over))]
pub(crate) fn reply_over(
    alloc: Global,
    schema: &Schema,
    ask: &GetAsk,
    view: &View,
    paths: &Paths,
) -> Result<Bytes, Refusal>
    ensures answer { IsUnlessMemory Refusal.NoMemory result
        (reply_over schema.now ask.now paths.now view.now.stamp view.now.rows) }
    ensures within { IfOk result (λ reply. length reply ≤ most_reply_octets) }
    ensures causes { IfErr result (λ refusal. (refusal ≡ Refusal.NotFound)
        ⊎ ((refusal ≡ Refusal.TooLarge) ⊎ (refusal ≡ Refusal.NoMemory))) }
{
    if has_empty_part(view.rows.items(), paths.items()) {
        return Err(Refusal::NotFound);
    }
    match reply_of_notes(alloc, schema, ask, view, paths.items()) {
        Ok(reply) => Ok(reply),
        Err(refusal) => Err(refusal),
    }
}
