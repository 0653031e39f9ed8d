ghost use Rattle.std.specs.Prelude.{◌≡◌, ◌≤◌, ◌<◌, length, slice_set, map, option_map, Some, IfOk, IfSome, vec_len, vec_capacity};
ghost use Rattle.site_io.specs.Net.{Binds, Accepts, IsOut, HasEnded};
ghost use Rattle.site_io.specs.ScriptedNet.{stream_of, new_listener, is_failing_now, is_failed_bound, is_failed_accept, IsNextTurn, IsNoTurn};

use super::{Accept, Bound, Listener, MemConn};
use std::alloc::{AllocError, Global};
use std::marker::Model;

/// A listener in memory, which gives connections that it was made with, and keeps those that it is handed back. Its
/// calls of `listen` and `next_connection` fail where they are told to.
#[derive(Debug, Drop)]
pub struct MemListener {
    // the next one last
    waiting: Vec<MemConn>,
    given: Vec<Option<MemConn>>,
    calls: u64,
    failing: Vec<u64>,
    faults: u64,
}

impl Model for MemListener {
    ghost use Rattle.std.specs.Prelude.{◌+◌, ◌≤◌, Some, vec_len, vec_capacity};
    ghost use Rattle.site_io.specs.ScriptedNet.{ScriptedNet, lines_of};

    ghost Value = { ScriptedNet };

    ghost view = { λ l. record {
      net = record { faults = l.faults; told = Some (lines_of l.waiting.items l.given.items) };
      calls = l.calls;
      failing = l.failing.items;
    } };

    ghost invariant = { λ l. vec_len l.waiting + vec_len l.given ≤ vec_capacity l.given };
}

impl MemListener {
    /// A listener with these connections. Copies the numbers of the calls that are to fail, which count from 1.
    pub fn new(
        alloc: Global,
        mut connections: Vec<MemConn>,
        failing: &[u64],
    ) -> Result<Self, AllocError>
        ensures { IfOk result (λ l. l ≡ new_listener (map stream_of connections.items) failing.now) }
    {
        let given = Vec::with_capacity(alloc, connections.len())?;
        let failing = Vec::from_slice(alloc, failing)?;
        connections.reverse();
        Ok(MemListener {
            waiting: connections,
            given,
            calls: 0,
            failing,
            faults: 0,
        })
    }

    /// The connections that were given, in order: each as it was handed back, or none while it is out.
    pub fn into_given(self) -> Vec<Option<MemConn>>
        ensures { IfSome self.net.told (λ told. told.given ≡ map (option_map stream_of) result.items) }
    {
        let MemListener {
            waiting: _,
            given,
            calls: _,
            failing: _,
            faults: _,
        } = self;
        given
    }

    /// How many calls of `listen` and `next_connection` it has met.
    pub fn calls(&self) -> u64
        ensures { result ≡ self.now.calls }
    {
        self.calls
    }

    /// How many of them have failed.
    pub fn faults(&self) -> u64
        ensures { result ≡ self.now.net.faults }
    {
        self.faults
    }

    // Counts a call, and says whether it is to fail.
    fn is_failing(&mut self) -> bool
        ensures failing { result ≡ is_failing_now self.old }
        ensures next { IsNextTurn result self.old self.new }
        ensures told { self.new.net.told ≡ self.old.net.told }
        ensures later { self.old.net.faults ≤ self.new.net.faults }
    {
        self.calls = self.calls.saturating_add(1);
        let is_failing = self.failing.contains(&self.calls);
        if is_failing {
            self.faults = self.faults.saturating_add(1);
        }
        is_failing
    }
}

impl Listener for MemListener {
    type Conn = MemConn;

    ghost net = { λ l. l.net };

    fn listen(&mut self, _port: u16) -> Bound
        ensures binds { Binds result self.old.net self.new.net }
        ensures next { IsNextTurn (is_failed_bound result) self.old self.new }
        ensures fails { is_failed_bound result ≡ is_failing_now self.old }
    {
        if self.is_failing() {
            return Bound::Failed;
        }
        self.given.clear();
        Bound::Listening
    }

    fn next_connection(&mut self) -> Accept<MemConn>
        ensures accepts { Accepts stream_of result self.old.net self.new.net }
        ensures next { IsNextTurn (is_failed_accept result) self.old self.new }
        ensures fails { is_failed_accept result ≡ is_failing_now self.old }
    {
        if self.is_failing() {
            return Accept::Failed;
        }
        match self.waiting.pop() {
            Some(connection) => {
                self.given.push_reserved(None);
                Accept::Connection(connection)
            }
            None => Accept::Closed,
        }
    }

    fn end_connection(&mut self, number: u32, connection: MemConn)
        requires { IsOut number self.old.net.told }
        ensures ended { HasEnded number (stream_of connection) self.old.net self.new.net }
        // It counts as no call, and none fails.
        ensures quiet { IsNoTurn self.old self.new }
    {
        let place = (number - 1) as usize;
        put_connection(&mut self.given, place, connection);
    }
}

fn put_connection(given: &mut Vec<Option<MemConn>>, place: usize, connection: MemConn)
    requires { place < length given.old.items }
    ensures items { given.new.items ≡ slice_set given.old.items place (Some connection) }
    ensures len { vec_len given.new ≡ vec_len given.old }
    ensures capacity { vec_capacity given.new ≡ vec_capacity given.old }
{
    given[place] = Some(connection);
}
