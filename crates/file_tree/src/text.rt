//! Bytes, texts and lists of paths, which contracts see as lists.
//!
//! Each is made from a vector, and gives it back, without taking memory.
ghost use Rattle.std.specs.Prelude.{◌≡◌, ℕ, List, flat_map, map, length, IfOk};
ghost use Rattle.std.specs.String.{string_bytes};

use std::alloc::{AllocError, Global};
use std::marker::Model;

/// The bytes of a file.
#[derive(Drop, Debug)]
pub struct Blob {
    bytes: Vec<u8>,
}

impl Model for Blob {
    ghost Value = { List ℕ };

    ghost view = { λ b. b.bytes.items };
}

impl Blob {
    /// These bytes.
    pub fn new(bytes: Vec<u8>) -> Blob
        ensures value { result ≡ bytes.items }
    {
        Blob { bytes }
    }

    /// A copy of these bytes.
    pub fn from_slice(alloc: Global, bytes: &[u8]) -> Result<Blob, AllocError>
        ensures value { IfOk result (λ b. b ≡ bytes.now) }
    {
        let bytes = Vec::from_slice(alloc, bytes)?;
        Ok(Blob { bytes })
    }

    /// A copy of the bytes of these pieces, one behind another.
    pub(crate) fn joined(alloc: Global, pieces: &[&[u8]]) -> Result<Blob, AllocError>
        ensures value { IfOk result (λ b. b ≡ flat_map (λ piece. piece.now) pieces.now) }
    {
        let bytes = joined(alloc, pieces)?;
        Ok(Blob { bytes })
    }

    /// The bytes, as a vector.
    pub fn into_vec(self) -> Vec<u8>
        ensures value { result.items ≡ self }
    {
        let Blob { bytes } = self;
        bytes
    }

    /// The bytes.
    pub fn as_slice(&self) -> &[u8]
        ensures value { result.now ≡ self.now }
    {
        self.bytes.as_slice()
    }

    /// How many bytes there are.
    pub fn len(&self) -> usize
        ensures value { result ≡ length self.now }
    {
        self.bytes.len()
    }

    /// A copy.
    pub fn copied(&self, alloc: Global) -> Result<Blob, AllocError>
        ensures value { IfOk result (λ b. b ≡ self.now) }
    {
        Blob::from_slice(alloc, self.as_slice())
    }
}

/// The bytes of these pieces, one behind another.
#[tactic(auto, using(crate::proofs::PieceLaws::piece_laws))]
fn joined(alloc: Global, pieces: &[&[u8]]) -> Result<Vec<u8>, AllocError>
    ensures value { IfOk result (λ bytes. bytes.items ≡ flat_map (λ piece. piece.now) pieces.now) }
{
    let mut bytes = Vec::new(alloc);
    'pieces: for piece in pieces {
        bytes.extend_from_slice(piece)?;
    }
    Ok(bytes)
}

/// A path, or what a link leads to.
#[derive(Drop, Debug)]
pub struct Text {
    text: String,
}

impl Model for Text {
    ghost Value = { List ℕ };

    ghost view = { λ t. string_bytes t.text };
}

impl Text {
    /// This text.
    pub fn new(text: String) -> Text
        ensures value { result ≡ string_bytes text }
    {
        Text { text }
    }

    /// A copy of this text.
    pub fn copy_of(alloc: Global, text: &str) -> Result<Text, AllocError>
        ensures value { IfOk result (λ t. t ≡ text.now) }
    {
        let text = String::from_str(alloc, text)?;
        Ok(Text { text })
    }

    /// The text, as a string.
    pub fn into_string(self) -> String
        ensures value { string_bytes result ≡ self }
    {
        let Text { text } = self;
        text
    }

    /// The text.
    pub fn as_str(&self) -> &str
        ensures value { result.now ≡ self.now }
    {
        self.text.as_str()
    }

    /// A copy.
    pub fn copied(&self, alloc: Global) -> Result<Text, AllocError>
        ensures value { IfOk result (λ t. t ≡ self.now) }
    {
        Text::copy_of(alloc, self.as_str())
    }
}

/// Paths in an order.
#[derive(Drop, Debug)]
pub struct Paths {
    paths: Vec<String>,
}

impl Model for Paths {
    ghost Value = { List (List ℕ) };

    ghost view = { λ p. map string_bytes p.paths.items };
}

impl Paths {
    /// These paths.
    pub fn new(paths: Vec<String>) -> Paths
        ensures value { result ≡ map string_bytes paths.items }
    {
        Paths { paths }
    }

    /// The paths, as a vector.
    pub fn into_vec(self) -> Vec<String>
        ensures value { map string_bytes result.items ≡ self }
    {
        let Paths { paths } = self;
        paths
    }

    /// The paths.
    pub fn as_slice(&self) -> &[String]
        ensures value { map string_bytes result.now ≡ self.now }
    {
        self.paths.as_slice()
    }

    /// How many paths there are.
    pub fn len(&self) -> usize
        ensures value { result ≡ length self.now }
    {
        self.paths.len()
    }
}
