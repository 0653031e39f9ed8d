// The rule of the table behind the lock, and the steps that its methods make.

use crate::stands_for::StandsFor;
use crate::view::View;
use atomic_table::{Join, Play, Split, TableRule};
use std::marker::PhantomData;
use std::snapshot::Snapshot;

// The key is the value that the lock was made with.
pub struct LockRule<V> {
    marker: PhantomData<V>,
}

impl<V: StandsFor> TableRule<Option<V>, View<V::Entry>, Snapshot<V>> for LockRule<V> {
    ghost use Rattle.hist_lock.specs.Turned.{Turned};
    ghost use Rattle.hist_lock.specs.Views.{first_view};

    ghost holds = { λ _. Turned V.entries V.author };

    ghost first = { λ key. first_view (V.entries key.value) };
}

// Draws a ticket.
pub struct Draw;

impl<V, E> Play<Option<V>, View<E>> for Draw {
    ghost use Rattle.hist_lock.specs.Steps.{Drew};

    ghost then = { Drew };
}

// Looks which ticket is served, and takes the slot where it is the pass's own.
pub struct Look<V> {
    marker: PhantomData<V>,
}

impl<V: StandsFor> Play<Option<V>, View<V::Entry>> for Look<V> {
    ghost use Rattle.hist_lock.specs.Steps.{Looked};

    ghost then = { Looked V.entries V.author };
}

// Serves the next ticket, with the list as it was.
pub struct Give;

impl<V, E> Play<Option<V>, View<E>> for Give {
    ghost use Rattle.hist_lock.specs.Steps.{Gave};

    ghost then = { Gave };
}

// Serves the next ticket, with one entry more in the list.
pub struct GiveWith<V> {
    marker: PhantomData<V>,
}

impl<V: StandsFor> Play<Option<V>, View<V::Entry>> for GiveWith<V> {
    ghost use Rattle.hist_lock.specs.Steps.{Added};

    ghost then = { Added V.entries V.author };
}

// Looks at the rule, which changes nothing.
pub struct Settle<V> {
    marker: PhantomData<V>,
}

impl<V: StandsFor> Play<Option<V>, View<V::Entry>> for Settle<V> {
    ghost use Rattle.hist_lock.specs.Steps.{Settled};

    ghost then = { Settled V.author };
}

// Makes an author.
pub struct Divide;

impl<E> Split<View<E>> for Divide {
    ghost use Rattle.hist_lock.specs.Views.{dividing, divided};

    ghost left = { dividing };

    ghost right = { divided };
}

// Copies the front.
pub struct CopyFront;

impl<E> Split<View<E>> for CopyFront {
    ghost use Rattle.hist_lock.specs.Views.{note_view};

    ghost left = { λ v. v };

    ghost right = { λ v. note_view v.front };
}

// Takes another view in.
pub struct Merge;

impl<E> Join<View<E>> for Merge {
    ghost use Rattle.hist_lock.specs.Views.{joined, spent};

    ghost both = { joined };

    ghost spent = { spent };
}
