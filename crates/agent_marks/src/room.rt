//! Lists whose room was taken before.
ghost use Rattle.std.specs.Prelude.{◌≡◌, ◌<◌, ◌≤◌, ◌++◌, ◌∷◌, [], length, vec_capacity};

/// Appends an item, for which there is room.
pub fn push_ready<T: Drop>(items: &mut Vec<T>, item: T)
    requires { length items.old.items < vec_capacity items.old }
    ensures items { items.new.items ≡ items.old.items ++ item ∷ [] }
    ensures capacity { vec_capacity items.old ≤ vec_capacity items.new }
{
    match items.push(item) {
        Ok(()) => {}
        Err(_refused) => unreachable!(),
    }
}
