//! What the calls of a lock do together, as a caller uses them.
ghost use Rattle.std.specs.Prelude.{◌≡◌, All, None, IfOk, IfErr};
ghost use mathlib.Core.List.{IsPrefix};

use crate::lock::HistLock;
use crate::stands_for::StandsFor;
use std::alloc::{AllocFailed, Global};
use std::sync::Wait;

/// A pass that was split from the first one in a turn, and joined again, lets the lock be closed.
pub fn closes_once_all_are_joined<V: StandsFor + Drop, R: Wait>(
    rt: &R,
    alloc: Global,
    value: V,
) -> Result<V, AllocFailed<V>>
    requires { All (λ e. V.author e ≡ None) (V.entries value) }
    ensures ok { IfOk result (λ now. IsPrefix (V.entries value) (V.entries now)) }
    ensures err { IfErr result (λ refused. refused.value ≡ value) }
{
    let (lock, mut first) = HistLock::new(alloc, value)?;
    let mut turn = lock.take(rt, &mut first);
    let Ok(second) = lock.split(&mut first, &mut turn) else {
        unreachable!()
    };
    lock.give(&mut first, turn);
    lock.join(&mut first, second);
    Ok(lock.close(first))
}
