//! A sink that keeps of what it receives the SHA-256 alone.

ghost use Rattle.std.specs.Prelude.{◌≡◌, ◌++◌, Bool, true, List, ℕ, [], IfErr, IfOk, OnErr, OnOk};
ghost use Rattle.sha2.specs.Sha256.{sha256};

use rc_volume::{Sink, SinkErr};
use sha2::{Digest, Sha256};
use std::alloc::{AllocError, Global};
use std::marker::Model;
use std::snapshot::Snapshot;

// A piece of what was received, of which only contracts know the bytes.
#[derive(Drop)]
struct Piece {
    bytes: Snapshot<Vec<u8>>,
}

/// A sink that feeds a hasher. Contracts see it as the list of the bytes; it keeps none of them.
#[derive(Drop)]
pub(crate) struct DigestSink {
    hasher: Sha256,
    pieces: Vec<Piece>,
}

impl Model for DigestSink {
    ghost use Rattle.std.specs.Prelude.{List, ℕ};
    ghost use Rattle.sha2.specs.Hashers.{Holds256};
    ghost use Rattle.drill.specs.Digest.{fed};

    ghost Value = { List ℕ };

    ghost view = { λ s. fed s.pieces.items };

    ghost invariant = { λ s. Holds256 s.hasher (fed s.pieces.items) };
}

impl DigestSink {
    /// A sink that has received nothing.
    pub(crate) fn new(alloc: Global) -> DigestSink
        ensures { result ≡ [] }
    {
        DigestSink {
            hasher: Sha256::new(),
            pieces: Vec::new(alloc),
        }
    }

    // Takes a piece behind the others.
    fn feed(&mut self, piece: &Vec<u8>) -> Result<(), SinkErr>
        ensures fed { OnOk result (self.new ≡ self.old ++ piece.now.items) }
        ensures err { OnErr result (self.new ≡ self.old) }
        ensures memory { IfErr result (λ e. e ≡ SinkErr.NoMemory) }
    {
        let bytes = Snapshot::of(piece);
        match self.pieces.push(Piece { bytes }) {
            Ok(()) => {
                self.hasher.update(piece.as_slice());
                Ok(())
            }
            Err(_) => Err(SinkErr::NoMemory),
        }
    }

    /// The SHA-256 of the bytes that it received.
    pub(crate) fn finish(self) -> [u8; 32]
        ensures { result ≡ sha256 self }
    {
        let DigestSink { hasher, pieces: _ } = self;
        hasher.finalize()
    }
}

impl Sink for DigestSink {
    ghost tells = { true };

    ghost received = { λ s. s };

    ghost faults = { λ _. 0 };

    fn write(&mut self, alloc: Global, bytes: &[u8]) -> Result<(), SinkErr> {
        match copied(alloc, bytes) {
            Ok(piece) => self.feed(&piece),
            Err(_) => Err(SinkErr::NoMemory),
        }
    }
}

fn copied(alloc: Global, bytes: &[u8]) -> Result<Vec<u8>, AllocError>
    ensures { IfOk result (λ copy. copy.items ≡ bytes.now) }
{
    let mut copy = Vec::new(alloc);
    copy.extend_from_slice(bytes)?;
    Ok(copy)
}
