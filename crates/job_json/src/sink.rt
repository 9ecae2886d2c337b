// A sink that makes one object of the text of an answer. A proof goes on as it comes; the lines before it are kept until it begins.

ghost use Rattle.std.specs.Prelude.{◌≡◌, None};

use crate::answer::write_answer;
use crate::message::write_messages;
use crate::object::Object;
use crate::script::write_script;
use crate::statistics::write_statistics;
use crate::text::text_of;
use base_answers::put_all;
use base_answers::status::FILE_REFUSED;
use job_counts::Statistics;
use job_messages::Message;
use linear_term::Memory;
use message_lines::cut;
use prover_io::{Failed, Sink};
use std::alloc::Global;
use std::string::String;

/// How many bytes of a proof are written at a time.
const PIECE: usize = 65_536;

/// What the first members of an object say.
#[derive(Drop)]
pub struct Head {
    /// The first word, if there is one.
    pub command: Option<String>,
    /// The name of FILE, where the words name a job that reads one.
    pub file: Option<String>,
}

/// Another sink, to which one object goes in place of a text.
#[derive(Drop)]
pub struct JsonSink<K> {
    alloc: Global,
    sink: K,
    head: Head,
    // The lines that were taken, up to the line `proof:`.
    lines: Vec<u8>,
    // Whether a proof has begun.
    is_proof: bool,
    faults: u64,
}

impl<K: Sink> JsonSink<K> {
    /// A sink that puts an object to this one.
    pub fn new(alloc: Global, sink: K, head: Head) -> JsonSink<K>
        ensures faults { ⟦<JsonSink<K> as Sink>⟧.faults result ≡ 0 }
    {
        JsonSink {
            alloc,
            sink,
            head,
            lines: Vec::new(alloc),
            is_proof: false,
            faults: 0,
        }
    }

    /// Ends the object of a run with this status and these messages, and with what the run did, where that is asked for.
    pub fn finish(
        &mut self,
        status: u8,
        messages: &[Message],
        statistics: Option<&Statistics>,
    ) -> Result<(), Failed> {
        if self.is_proof {
            put_all(&mut self.sink, b"\"")?;
        } else {
            let front = self.front(status == FILE_REFUSED, messages)?;
            put_all(&mut self.sink, front.as_slice())?;
        }
        let Ok(end) = end_of_object(self.alloc, status, messages, statistics) else {
            return Err(Failed);
        };
        put_all(&mut self.sink, b",")?;
        put_all(&mut self.sink, end.get(1..).unwrap_or(&[]))?;
        put_all(&mut self.sink, b"\n")
    }

    /// The object up to its members for the lines of an answer, which is a refusal or not.
    fn front(&self, is_refused: bool, messages: &[Message]) -> Result<Vec<u8>, Failed> {
        let lines = self.lines.as_slice();
        match front_of_object(self.alloc, &self.head, lines, is_refused, messages) {
            Ok(front) => Ok(front),
            Err(Memory) => Err(Failed),
        }
    }

    /// Takes some bytes of a text.
    fn take(&mut self, piece: &[u8]) -> Result<usize, Failed>
        ensures counted { self.new.faults ≡ self.old.faults }
    {
        if self.is_proof {
            self.take_proof(piece)
        } else {
            self.take_line(piece)
        }
    }

    /// Takes a line, or the part of it that is there; after the line `proof:` the object is begun.
    fn take_line(&mut self, piece: &[u8]) -> Result<usize, Failed>
        ensures counted { self.new.faults ≡ self.old.faults }
    {
        let (front, behind) = cut(piece, b'\n');
        let count = match behind {
            Some(_) => front.len().saturating_add(1),
            None => front.len(),
        };
        let line = piece.get(..count).unwrap_or(piece);
        if self.lines.extend_from_slice(line).is_err() {
            return Err(Failed);
        }
        if self.lines.ends_with(b"\nproof:\n") && !is_script(&self.head) {
            self.is_proof = true;
            let front = self.front(false, &[])?;
            put_all(&mut self.sink, front.as_slice())?;
            put_all(&mut self.sink, b",\"proof\":\"")?;
        }
        Ok(line.len())
    }

    /// Takes a piece of a proof.
    fn take_proof(&mut self, piece: &[u8]) -> Result<usize, Failed>
        ensures counted { self.new.faults ≡ self.old.faults }
    {
        let taken = piece.get(..PIECE).unwrap_or(piece);
        let Ok(quoted) = quoted(self.alloc, taken) else {
            return Err(Failed);
        };
        let inside = quoted.get(1..quoted.len().saturating_sub(1)).unwrap_or(&[]);
        put_all(&mut self.sink, inside)?;
        Ok(taken.len())
    }
}

impl<K: Sink> Sink for JsonSink<K> {
    ghost taken = { λ s. None };

    ghost faults = { λ s. s.faults };

    fn put(&mut self, piece: &[u8]) -> Result<usize, Failed> {
        match self.take(piece) {
            Ok(count) if 0 < count && count <= piece.len() => Ok(count),
            _ => {
                self.faults = self.faults.saturating_add(1);
                Err(Failed)
            }
        }
    }
}

/// The object up to its members for the lines of an answer.
fn front_of_object(
    alloc: Global,
    head: &Head,
    lines: &[u8],
    is_refused: bool,
    messages: &[Message],
) -> Result<Vec<u8>, Memory> {
    let mut object = Object::begin(alloc)?;
    object.text_or_null("command", bytes_of(&head.command))?;
    object.text_or_null("file", bytes_of(&head.file))?;
    if is_script(head) {
        write_script(&mut object, lines, is_refused, messages)?;
    } else {
        write_answer(&mut object, lines, messages)?;
    }
    Ok(object.into_bytes())
}

/// An object with the members after those for the lines.
fn end_of_object(
    alloc: Global,
    status: u8,
    messages: &[Message],
    statistics: Option<&Statistics>,
) -> Result<Vec<u8>, Memory> {
    let mut object = Object::begin(alloc)?;
    object.number_member("status", status as u64)?;
    write_messages(&mut object, messages)?;
    if let Some(statistics) = statistics {
        write_statistics(&mut object, statistics)?;
    }
    object.close()?;
    Ok(object.into_bytes())
}

/// Whether the command answers a script.
fn is_script(head: &Head) -> bool {
    match bytes_of(&head.command) {
        Some(command) => command == b"smt".as_slice(),
        None => false,
    }
}

fn bytes_of(text: &Option<String>) -> Option<&[u8]> {
    match text {
        Some(text) => Some(text.as_bytes()),
        None => None,
    }
}

/// Bytes as a text of JSON, between quotes.
fn quoted(alloc: Global, bytes: &[u8]) -> Result<Vec<u8>, Memory> {
    let text = text_of(alloc, bytes)?;
    let mut writer = json::Writer::new(Vec::new(alloc));
    writer.string(text.as_str())?;
    Ok(writer.into_inner())
}
