//! The servers of the elements: what each one does, and which ports sleep.
ghost use Rattle.std.specs.Prelude.{◌≡◌, ℕ, ◌+◌, ◌≤◌, true, false, ◌||◌, ◌↔◌, List, length, IfOk, if◌then◌else◌, ◌==◌};
ghost use Rattle.std.specs.Prelude.{count_by};
ghost use Rattle.im_types.specs.Types.{Contents};
ghost use Rattle.im_queue.specs.Servers.{AllStuckBut, are_stuck, is_stuck, is_unmade, is_waiting_server, Makes};
ghost use Rattle.im_queue.specs.Servers.{with_server};

use arrayvec::ArrayVec;
use im_memory::Memory;
use im_types::Entry;
use std::alloc::{AllocError, Global};
use std::marker::Model;

/// What the server of an element does.
#[derive(Clone, Copy, Debug, PartialEq, Eq)]
pub enum ServerState {
    /// It has no port yet.
    Unmade,
    /// It serves.
    Active,
    /// It waits for the entry of this number.
    Waits(u64),
    /// It has ended.
    Retired,
}

/// What a server is told when it asks to wait.
#[derive(Clone, Copy, Debug, PartialEq, Eq)]
pub enum Ask {
    /// Its entry is answered.
    Go,
    /// It waits from now on.
    Wait,
}

/// The servers of all elements, and the entry for which each port sleeps. Ports of ended servers count too.
#[derive(Drop)]
pub struct Servers {
    all: Vec<ServerState>,
    asleep: Vec<Option<u64>>,
}

impl Model for Servers {
    ghost use Rattle.std.specs.Prelude.{◌≤◌, List, length};
    ghost use Rattle.im_queue.specs.declared.servers.ServerState.{ServerState};

    ghost Value = { List ServerState };

    ghost view = { λ s. s.all.items };

    ghost invariant = { λ s. length s.all.items ≤ 65536 };
}

// Returns 1 for a server that waits for an entry, else 0.
fn one_waiting(server: ServerState) -> u32
    ensures { result ≡ (if is_waiting_server server then 1 else 0) }
{
    match server {
        ServerState::Waits(_) => 1,
        ServerState::Unmade => 0,
        ServerState::Active => 0,
        ServerState::Retired => 0,
    }
}

// Returns how many of these servers wait for an entry.
fn count_waiting(servers: &[ServerState]) -> u32
    requires { length servers.now ≤ 65536 }
    ensures { result ≡ count_by is_waiting_server servers.now }
{
    let mut waits = 0;
    for i in 0..servers.len() {
        waits += one_waiting(servers[i]);
    }
    waits
}

// Returns false exactly if the server is active or waits for an answered entry.
fn is_stuck(memory: &Memory, element: u16, server: ServerState) -> bool
    ensures { result ≡ is_stuck memory.now.contents element server }
{
    match server {
        ServerState::Active => false,
        ServerState::Waits(number) => match memory.collect(element, number) {
            Ok(Entry::Answered(_)) => false,
            Ok(Entry::Waiting) => true,
            Err(_) => true,
        },
        ServerState::Unmade => true,
        ServerState::Retired => true,
    }
}

// Returns the same of another server, and true of the caller's.
fn is_past(memory: &Memory, caller: u16, element: u16, server: ServerState) -> bool
    ensures { result ≡ ((element == caller) || is_stuck memory.now.contents element server) }
{
    element == caller || is_stuck(memory, element, server)
}

// Returns whether all servers but the caller's are stuck.
fn are_stuck(memory: &Memory, caller: u16, servers: &[ServerState]) -> bool
    requires { length servers.now ≤ 65536 }
    ensures { result ≡ are_stuck memory.now.contents caller 0 servers.now }
{
    for i in 0..servers.len() {
        if !is_past(memory, caller, i as u16, servers[i]) {
            return false;
        }
    }
    true
}

// Makes the given number of ports, none of which sleeps.
fn awake(alloc: Global, elements: u16) -> Result<Vec<Option<u64>>, AllocError> {
    let mut asleep = Vec::with_capacity(alloc, elements as usize)?;
    for _ in 0..elements {
        asleep.push(None)?;
    }
    Ok(asleep)
}

// Returns whether a port sleeps for an entry that is no longer waiting.
fn is_answered(memory: &Memory, element: u16, asleep: Option<u64>) -> bool {
    match asleep {
        Some(number) => !matches!(memory.collect(element, number), Ok(Entry::Waiting)),
        None => false,
    }
}

impl Servers {
    /// Makes the given number of servers, none of which is made yet or asleep. Returns `AllocError` if `alloc` refuses
    /// the memory.
    pub fn new(alloc: Global, elements: u16) -> Result<Servers, AllocError>
        ensures count { IfOk result (λ s. length s ≡ elements) }
        ensures unmade { IfOk result (λ s. count_by is_unmade s ≡ elements) }
    {
        let mut all = Vec::with_capacity(alloc, elements as usize)?;
        for _ in 0..elements {
            all.push(ServerState::Unmade)?;
        }
        let asleep = awake(alloc, elements)?;
        Ok(Servers { all, asleep })
    }

    /// Makes a server. Returns whether there is one that wasn't made before.
    pub fn make(&mut self, element: u16) -> bool
        ensures makes { Makes self.old element result self.new }
        ensures unmade { result ≡ true
            → count_by is_unmade self.new + 1 ≡ count_by is_unmade self.old }
    {
        let i = element as usize;
        if i >= self.all.len() {
            return false;
        }
        match self.all[i] {
            ServerState::Unmade => {
                self.all[i] = ServerState::Active;
                true // Its port is made now.
            }
            ServerState::Active => false,
            ServerState::Waits(_) => false,
            ServerState::Retired => false,
        }
    }

    /// Sets what a server does from now on, if it is active or waits.
    pub fn change(&mut self, element: u16, server: ServerState)
        ensures state { self.new ≡ with_server self.old element server }
        ensures unmade { is_unmade server ≡ false
            → count_by is_unmade self.new ≡ count_by is_unmade self.old }
    {
        let i = element as usize;
        if i >= self.all.len() {
            return;
        }
        match self.all[i] {
            ServerState::Active => self.all[i] = server,
            ServerState::Waits(_) => self.all[i] = server,
            ServerState::Unmade => {}
            ServerState::Retired => {}
        }
    }

    /// Returns whether all servers but the caller's are stuck: none is active, and none waits for an answered entry.
    pub fn are_stuck(&self, memory: &Memory, caller: u16) -> bool
        ensures { result ≡ are_stuck memory.now.contents caller 0 self.now }
    {
        are_stuck(memory, caller, self.all.as_slice())
    }

    /// Returns how many of them wait.
    pub fn waiting(&self) -> u32
        ensures { result ≡ count_by is_waiting_server self.now }
    {
        count_waiting(self.all.as_slice())
    }

    /// Notes for which entry an element's port sleeps from now on, if it sleeps.
    pub fn note(&mut self, element: u16, number: Option<u64>)
        ensures same { self.new ≡ self.old }
    {
        let i = element as usize;
        if i < self.asleep.len() {
            self.asleep[i] = number;
        }
    }

    // Returns the number for which an element's port sleeps, if it sleeps.
    fn awaited(&self, element: usize) -> Option<u64> {
        match self.asleep.get(element) {
            Some(number) => *number,
            None => None,
        }
    }

    /// Returns the elements of the ports that sleep.
    pub fn asleep(&self) -> ArrayVec<u16, 64> {
        let mut sleepers = ArrayVec::new();
        for i in 0..self.all.len() {
            if self.awaited(i).is_some() {
                let _room = sleepers.try_push(i as u16);
            }
        }
        sleepers
    }

    /// Returns the elements of the ports that sleep for an entry that is no longer waiting.
    pub fn answered(&self, memory: &Memory) -> ArrayVec<u16, 64> {
        let mut sleepers = ArrayVec::new();
        for i in 0..self.all.len() {
            if is_answered(memory, i as u16, self.awaited(i)) {
                let _room = sleepers.try_push(i as u16);
            }
        }
        sleepers
    }
}

/// The test that goes through all servers is true exactly if each server but the caller's is stuck.
pub fn stuck_is_each()
    ensures { (m : Contents) (caller : ℕ) (servers : List ServerState)
        → (are_stuck m caller 0 servers ≡ true) ↔ AllStuckBut m caller servers }
{}
