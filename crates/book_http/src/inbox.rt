ghost use Rattle.std.specs.Prelude.{◌≡◌, ◌≢◌, ◌++◌, [], ℕ, List, ◌+◌, ◌<◌, ◌≤◌, length, take, drop};
ghost use Rattle.std.specs.Prelude.{Ok, Err, IfOk, OnOk, OnErr, if◌then◌else◌};
ghost use Rattle.std.specs.Io.KnownBytes.{Consumes, IsAtEnd, Keeps};
ghost use Rattle.book_keeper.specs.Faults.{HasCause, Rose};
ghost use Rattle.book_http.specs.Reading.{HasRead};

use crate::next::NextError;
use book_commodity::{Bytes, OutOfMemory};
use book_keeper::{Failed, Source};
use std::alloc::Global;
use std::marker::Model;

/// How many bytes are read at a time.
const PIECE: usize = 65_536;

/// The bytes of a link that were read and are not used yet.
#[derive(Drop)]
pub struct Inbox {
    bytes: Vec<u8>,
}

impl Model for Inbox {
    ghost use Rattle.std.specs.Prelude.{ℕ, List};

    ghost Value = { List ℕ };

    ghost view = { λ inbox. inbox.bytes.items };
}

/// Reads the next bytes of the link into the buffer behind its first ones, and says how many.
fn read_behind<S: Source>(link: &mut S, buffer: &mut [u8], first: usize) -> Result<usize, Failed>
    requires { first < length buffer.old }
    ensures kept { take first buffer.new ≡ take first buffer.old }
    ensures within { IfOk result (λ count. first + count ≤ length buffer.new) }
    ensures taken { IfOk result (λ count.
        Consumes (S.left link.old) (S.left link.new) (take count (drop first buffer.new))) }
    ensures end { result ≡ Ok 0 → IsAtEnd (S.left link.new) }
    ensures unread { OnErr result (Keeps (S.left link.old) (S.left link.new)) }
    ensures cause { HasCause (S.faults link.old) (S.faults link.new) result }
{
    link.read(&mut buffer[first..])
}

impl Inbox {
    /// An inbox without bytes; it takes no memory.
    pub fn new(alloc: Global) -> Inbox
        ensures { result ≡ [] }
    {
        Inbox {
            bytes: Vec::new(alloc),
        }
    }

    /// Its bytes.
    pub(crate) fn as_slice(&self) -> &[u8]
        ensures { result.now ≡ self.now }
    {
        self.bytes.as_slice()
    }

    /// Reads the next bytes of the link behind those that it has, and says how many: none at the end of the link.
    pub(crate) fn fill<S: Source>(&mut self, link: &mut S) -> Result<usize, NextError>
        ensures read { HasRead self.old self.new (S.left link.old) (S.left link.new) }
        ensures count { IfOk result (λ count. length self.new ≡ length self.old + count) }
        ensures end { result ≡ Ok 0 → (self.new ≡ self.old) × IsAtEnd (S.left link.new) }
        ensures unread { OnErr result (self.new ≡ self.old) }
        ensures fault { result ≡ Err NextError.ReadFault → Rose (S.faults link.old) (S.faults link.new) }
        ensures no_fault { result ≢ Err NextError.ReadFault → S.faults link.new ≡ S.faults link.old }
    {
        let size = self.bytes.as_slice().len();
        self.bytes.resize(size + PIECE, 0)?;
        match read_behind(link, &mut self.bytes, size) {
            Ok(count) => {
                self.bytes.truncate(size + count);
                Ok(count)
            }
            Err(Failed) => {
                self.bytes.truncate(size);
                Err(NextError::ReadFault)
            }
        }
    }

    /// Takes a head of this size and the body behind it away, and gives the body, or no bytes where it is not wanted.
    pub(crate) fn take(
        &mut self,
        alloc: Global,
        head: usize,
        body: usize,
        wanted: bool,
    ) -> Result<Bytes, OutOfMemory>
        requires { head + body ≤ length self.old }
        ensures body { IfOk result (λ bytes.
            bytes ≡ (if wanted then take body (drop head self.old) else [])) }
        ensures taken { OnOk result (self.new ≡ drop (head + body) self.old) }
        ensures unchanged { OnErr result (self.new ≡ self.old) }
    {
        let rest = Vec::from_slice(alloc, &self.bytes[head + body..])?;
        let bytes = if wanted {
            Vec::from_slice(alloc, &self.bytes[head..head + body])?
        } else {
            Vec::new(alloc)
        };
        self.bytes = rest;
        Ok(Bytes::of(bytes))
    }
}
