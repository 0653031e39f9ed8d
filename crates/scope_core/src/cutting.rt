//! Names as they are written after `$`.
ghost use Rattle.std.specs.Prelude.{◌≡◌, ◌+◌, ◌≤◌, None, length, option_map, IfSome};
ghost use Rattle.std.specs.List.{list_any};
ghost use Rattle.std.specs.Char.{is_ascii_uppercase};
ghost use Rattle.scope_core.specs.Names.{is_colon, is_cut, last_cut, cut, without_front_colons};

/// What stands before the last `::` and behind it, where there is one.
#[inline(always)]
#[tactic(auto, using(crate::proofs::Cuts::no_cut))]
pub fn cut(name: &[u8]) -> Option<(&[u8], &[u8])>
    ensures { option_map (λ p. (p.0.now, p.1.now)) result ≡ cut name.now }
{
    if !has_colon(name) {
        return None;
    }
    cut_at_last(name)
}

#[inline(never)]
fn cut_at_last(name: &[u8]) -> Option<(&[u8], &[u8])>
    ensures { option_map (λ p. (p.0.now, p.1.now)) result ≡ cut name.now }
{
    match last_cut(name) {
        Some(at) => Some((&name[..at], &name[at + 2..])),
        None => None,
    }
}

/// Most names have none.
#[inline(always)]
fn has_colon(name: &[u8]) -> bool
    ensures { result ≡ list_any is_colon name.now }
{
    name.iter().any(|byte| *byte == b':')
}

/// Where the last `::` begins.
#[tactic(auto, unfolding(crate::specs::Names::last_cut))]
fn last_cut(name: &[u8]) -> Option<usize>
    ensures place { result ≡ last_cut 0 name.now None }
    ensures within { IfSome result (λ p. p + 2 ≤ length name.now) }
{
    let mut found = None;
    let mut at = 0;
    let mut rest = name;
    while let [_first, after @ ..] = rest {
        if is_cut(rest) {
            found = Some(at);
        }
        at += 1;
        rest = after;
    }
    found
}

fn is_cut(bytes: &[u8]) -> bool
    ensures { result ≡ is_cut bytes.now }
{
    matches!(bytes, [b':', b':', ..])
}

pub fn without_front_colons(name: &[u8]) -> &[u8]
    ensures { result.now ≡ without_front_colons name.now }
{
    match name {
        [b':', b':', rest @ ..] => rest,
        _ => name,
    }
}

pub fn has_capital(name: &[u8]) -> bool
    ensures { result ≡ list_any is_ascii_uppercase name.now }
{
    name.iter().any(|byte| byte.is_ascii_uppercase())
}
