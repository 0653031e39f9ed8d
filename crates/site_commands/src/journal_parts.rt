//! Where a journal ends, and what stands behind it.
ghost use Rattle.std.specs.Prelude.{◌≡◌, ◌≤◌, length};
ghost use Rattle.site_commands.specs.JournalParts as spec;

/// The last line of a journal begins so.
const LAST_LINE: &str = "{\"entries\":";

/// What stands behind the last line of a journal.
#[tactic(auto, unfolding(crate::specs::JournalParts::behind_last))]
pub fn requests_part(bytes: &[u8]) -> &[u8]
    ensures part { result.now ≡ spec.requests_part bytes.now }
    ensures within { length result.now ≤ length bytes.now }
{
    let mut begins = true;
    let mut left = bytes;
    while let [byte, after @ ..] = left {
        if begins && is_last_line(left) {
            return behind_line(left);
        }
        begins = *byte == b'\n';
        left = after;
    }
    &[]
}

fn is_last_line(bytes: &[u8]) -> bool
    ensures { result ≡ spec.is_last_line bytes.now }
{
    bytes.starts_with(LAST_LINE.as_bytes())
}

/// What stands behind the first line feed.
pub fn behind_line(bytes: &[u8]) -> &[u8]
    ensures part { result.now ≡ spec.behind_line bytes.now }
    ensures within { length result.now ≤ length bytes.now }
{
    let mut left = bytes;
    while let [byte, after @ ..] = left {
        if *byte == b'\n' {
            return after;
        }
        left = after;
    }
    &[]
}
