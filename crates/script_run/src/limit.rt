ghost use Rattle.std.specs.Prelude.{◌≡◌, ◌≤◌, length};
ghost use Rattle.base_kinds.specs.Limits.{most_script_octets};
ghost use Rattle.script_run.specs.ScriptOctets.{is_too_long, to_last_feed, within_limit};

use base_kinds::MOST_SCRIPT_OCTETS;

/// Whether the script has more octets than a script may have.
pub fn is_too_long(script: &[u8]) -> bool
    ensures { result ≡ is_too_long script.now }
{
    script.len() > MOST_SCRIPT_OCTETS as usize
}

/// The script, or where it is too long its lines that end within the limit.
pub fn within_limit(script: &[u8]) -> &[u8]
    ensures lines { result.now ≡ within_limit script.now }
    ensures short { length result.now ≤ most_script_octets }
{
    if script.len() > MOST_SCRIPT_OCTETS as usize {
        let front = &script[..MOST_SCRIPT_OCTETS as usize];
        return to_last_feed(front);
    }
    script
}

/// The text up to its last line feed.
fn to_last_feed(text: &[u8]) -> &[u8]
    ensures front { result.now ≡ to_last_feed text.now }
    ensures short { length result.now ≤ length text.now }
{
    let mut end = text.len();
    'octets: while end > 0 {
        if text[end - 1] == b'\n' {
            return &text[..end];
        }
        end -= 1;
    }
    &text[..0]
}
