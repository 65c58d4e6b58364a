//! Record batches. `crc`, `size`, `read`, `header`, `layout`, `producer`, `records`, `record N`,
//! `end-marker` tell of bytes; `cuts` reads each front of them, `flips BITS FROM` them with each
//! byte from a place on changed. `build`, `push`, `built`, `finish` and `based` make a batch,
//! `marker` a control batch. A text is told as `null`, in digits, or by its length if it is long.
use kx_batch::{
    BatchBuilder, BatchView, BuildFault, HeaderView, RecordView, crc32c, marker_text, set_base,
};
use kx_cases::{
    Runs, StepFault, Subject, Texts, known, told, told_bytes, told_name, told_same, told_value,
    value,
};
use kx_wire::{Epoch, Outcome, ProducerId};
use std::alloc::Global;

// How many bytes of a key or a value are told.
const TOLD: usize = 32;

/// The batch that a case makes.
#[derive(Drop)]
pub(crate) struct BatchCases {
    alloc: Global,
    builder: BatchBuilder,
}

// A view of the batch at the front.
fn view(bytes: &[u8]) -> Result<BatchView<'_>, StepFault> {
    match BatchView::read(bytes) {
        Ok((batch, _)) => Ok(batch),
        Err(_) => Err(StepFault::Unknown),
    }
}

// How many bytes the batch at the front has, and the bytes after it, or the fault.
fn read(alloc: Global, bytes: &[u8]) -> Result<String, StepFault> {
    match BatchView::read(bytes) {
        Ok((batch, behind)) => {
            let len = batch.text().len();
            let behind = told_bytes(alloc, behind)?;
            Ok(format!(in alloc; "{len} {behind}")?)
        }
        Err(fault) => told_name(alloc, fault),
    }
}

// The base offset, the leader epoch and both timestamps, the attributes and what they say.
fn header(alloc: Global, batch: &BatchView<'_>) -> Result<String, StepFault> {
    let base = batch.base_offset();
    let leader = batch.leader_epoch();
    let first = batch.base_timestamp();
    let last = batch.max_timestamp();
    let attributes = batch.attributes();
    let transactional = batch.is_transactional();
    let control = batch.is_control();
    Ok(format!(in alloc; "{base} {leader} {first} {last} {attributes} {transactional} {control}")?)
}

// The length, the magic byte, the checksum, the last offset delta and the count of records.
fn layout(alloc: Global, batch: &BatchView<'_>) -> Result<String, StepFault> {
    let length = batch.batch_length();
    let magic = batch.magic();
    let crc = batch.crc();
    let last = batch.last_offset_delta();
    let count = batch.record_count();
    Ok(format!(in alloc; "{length} {magic} {crc:08x} {last} {count}")?)
}

// The producer's id and epoch, and the sequence of its first record.
fn producer(alloc: Global, batch: &BatchView<'_>) -> Result<String, StepFault> {
    let id = batch.producer_id();
    let epoch = batch.producer_epoch();
    let sequence = batch.base_sequence();
    Ok(format!(in alloc; "{id} {epoch} {sequence}")?)
}

fn told_text(alloc: Global, text: Option<&[u8]>) -> Result<String, StepFault> {
    match text {
        None => told_value(alloc, "null"),
        Some(bytes) if bytes.len() > TOLD => Ok(format!(in alloc; "({})", bytes.len())?),
        Some(bytes) => Ok(told_bytes(alloc, bytes)?),
    }
}

// A header, after what is told before it.
fn push_header(alloc: Global, text: &mut String, header: &HeaderView<'_>) -> Result<(), StepFault> {
    let key = told_text(alloc, Some(header.key()))?;
    let value = told_text(alloc, header.value())?;
    Ok(write!(text, " {key}:{value}")?)
}

// How many headers there are, and each.
fn told_headers(alloc: Global, record: &RecordView<'_>) -> Result<String, StepFault> {
    let headers = record.headers();
    let mut text = told_value(alloc, headers.len())?;
    for header in headers {
        push_header(alloc, &mut text, &header)?;
    }
    Ok(text)
}

// Attributes, timestamp delta and offset delta, key and value, how many headers, and each.
fn told_record(alloc: Global, record: &RecordView<'_>) -> Result<String, StepFault> {
    let attributes = record.attributes();
    let time = record.timestamp_delta();
    let offset = record.offset_delta();
    let key = told_text(alloc, record.key())?;
    let value = told_text(alloc, record.value())?;
    let headers = told_headers(alloc, record)?;
    Ok(format!(in alloc; "{attributes} {time} {offset} {key} {value} {headers}")?)
}

// How many records there are.
fn records(alloc: Global, batch: &BatchView<'_>) -> Result<String, StepFault> {
    told_value(alloc, batch.records().len())
}

// The record of a number, counted from 0, as a view of the same text gives it.
fn record(alloc: Global, bytes: &[u8], number: usize) -> Result<String, StepFault> {
    let Ok((batch, _)) = BatchView::read(bytes) else {
        return Err(StepFault::Unknown);
    };
    let same = BatchView::of_batch(batch.text());
    match same.records().nth(number) {
        Some(record) => told_record(alloc, &record),
        None => told_value(alloc, "none"),
    }
}

fn end_marker(alloc: Global, batch: &BatchView<'_>) -> Result<String, StepFault> {
    match batch.end_marker() {
        Some((outcome, coordinator)) => Ok(format!(in alloc; "{outcome} {coordinator}")?),
        None => told_value(alloc, "none"),
    }
}

fn cuts(alloc: Global, bytes: &[u8]) -> Result<String, StepFault> {
    let mut runs = Runs::new(alloc);
    for len in 0..=bytes.len() {
        let answer = read(alloc, &bytes[..len])?;
        runs.push(len, answer)?;
    }
    Ok(runs.finish()?)
}

fn flip(bytes: &mut Vec<u8>, place: usize, bits: u8) {
    if let Some(byte) = bytes.as_mut_slice().get_mut(place) {
        *byte ^= bits;
    }
}

// What bytes are read as with some bits of one changed; they are then as before.
fn flipped(
    alloc: Global,
    bytes: &mut Vec<u8>,
    place: usize,
    bits: u8,
) -> Result<String, StepFault> {
    flip(bytes, place, bits);
    let answer = read(alloc, bytes.as_slice());
    flip(bytes, place, bits);
    answer
}

fn flips(alloc: Global, bits: u8, from: usize, mut bytes: Vec<u8>) -> Result<String, StepFault> {
    let mut runs = Runs::new(alloc);
    for place in from..bytes.len() {
        let answer = flipped(alloc, &mut bytes, place, bits)?;
        runs.push(place, answer)?;
    }
    Ok(runs.finish()?)
}

fn flips_step(alloc: Global, texts: &Texts, words: &[&str]) -> Result<String, StepFault> {
    let [bits, from, bytes] = words else {
        return Err(StepFault::Unknown);
    };
    flips(alloc, value(bits)?, value(from)?, texts.bytes(bytes)?)
}

fn record_step(alloc: Global, texts: &Texts, words: &[&str]) -> Result<String, StepFault> {
    let [number, bytes] = words else {
        return Err(StepFault::Unknown);
    };
    let number = value::<usize>(number)?;
    record(alloc, texts.bytes(bytes)?.as_slice(), number)
}

// The control batch of a producer's id and epoch, an outcome and a coordinator's epoch.
fn marker(alloc: Global, words: &[&str]) -> Result<Result<Vec<u8>, BuildFault>, StepFault> {
    let [id, epoch, outcome, coordinator] = words else {
        return Err(StepFault::Unknown);
    };
    let id = known(ProducerId::try_from(value::<i64>(id)?))?;
    let epoch = known(Epoch::try_from(value::<i16>(epoch)?))?;
    let outcome = value::<Outcome>(outcome)?;
    let coordinator = value::<i32>(coordinator)?;
    Ok(marker_text(alloc, id, epoch, outcome, coordinator))
}

// A text of bytes, or `null`.
fn nullable(texts: &Texts, word: &str) -> Result<Option<Vec<u8>>, StepFault> {
    if word == "null" {
        return Ok(None);
    }
    Ok(Some(texts.bytes(word)?))
}

// What steps tell of a batch that is in bytes.
fn batch_step(alloc: Global, name: &str, bytes: &[u8]) -> Result<String, StepFault> {
    match name {
        "header" => header(alloc, &view(bytes)?),
        "layout" => layout(alloc, &view(bytes)?),
        "producer" => producer(alloc, &view(bytes)?),
        "records" => records(alloc, &view(bytes)?),
        "end-marker" => end_marker(alloc, &view(bytes)?),
        _ => Err(StepFault::Unknown),
    }
}

// What steps tell of bytes.
fn bytes_step(alloc: Global, name: &str, bytes: &[u8]) -> Result<String, StepFault> {
    match name {
        "crc" => Ok(format!(in alloc; "{:08x}", crc32c(bytes))?),
        "size" => told_value(alloc, bytes.len()),
        "read" => read(alloc, bytes),
        "cuts" => cuts(alloc, bytes),
        _ => batch_step(alloc, name, bytes),
    }
}

impl BatchCases {
    // Begins a batch of these attributes, and of this producer's id, epoch and sequence.
    fn build(&mut self, words: &[&str]) -> Result<String, StepFault> {
        let [attributes, id, epoch, sequence] = words else {
            return Err(StepFault::Unknown);
        };
        let attributes = value::<i16>(attributes)?;
        let id = value::<i64>(id)?;
        let epoch = value::<i16>(epoch)?;
        let sequence = value::<i32>(sequence)?;
        if attributes.cast_unsigned() % 8 != 0 {
            return Err(StepFault::Unknown);
        }
        self.builder = BatchBuilder::new(self.alloc, attributes, id, epoch, sequence);
        told_value(self.alloc, "ok")
    }

    // Pushes a record of this key and value, with these headers.
    fn push(
        &mut self,
        texts: &Texts,
        key: &str,
        value: &str,
        headers: &[HeaderView<'_>],
    ) -> Result<String, StepFault> {
        let key = nullable(texts, key)?;
        let value = nullable(texts, value)?;
        self.builder
            .push(key.as_deref(), value.as_deref(), headers)?;
        told_value(self.alloc, "ok")
    }

    fn push_with_header(&mut self, texts: &Texts, words: &[&str]) -> Result<String, StepFault> {
        let [key, value, header, header_value] = words else {
            return Err(StepFault::Unknown);
        };
        let header = texts.bytes(header)?;
        let header_value = nullable(texts, header_value)?;
        let headers = [HeaderView::new(header.as_slice(), header_value.as_deref())];
        self.push(texts, key, value, &headers)
    }

    // The batch of what was pushed, at a base offset.
    fn based(&self, offset: i64) -> Result<Vec<u8>, BuildFault> {
        let mut text = self.builder.finish()?;
        set_base(text.as_mut_slice(), offset);
        Ok(text)
    }

    // What was made, if it isn't what is wanted, or the fault.
    fn told_made(
        &self,
        made: Result<Vec<u8>, BuildFault>,
        want: Vec<u8>,
    ) -> Result<String, StepFault> {
        match made {
            Ok(text) => Ok(told_same(self.alloc, text.as_slice(), want.as_slice())?),
            Err(fault) => told_name(self.alloc, fault),
        }
    }

    fn push_step(&mut self, texts: &Texts, words: &[&str]) -> Result<String, StepFault> {
        match words {
            [key, value] => self.push(texts, key, value, &[]),
            _ => self.push_with_header(texts, words),
        }
    }

    fn marker_step(&self, texts: &Texts, words: &[&str]) -> Result<String, StepFault> {
        let [given @ .., want] = words else {
            return Err(StepFault::Unknown);
        };
        self.told_made(marker(self.alloc, given)?, texts.bytes(want)?)
    }

    fn based_step(&self, texts: &Texts, words: &[&str]) -> Result<String, StepFault> {
        let [offset, want] = words else {
            return Err(StepFault::Unknown);
        };
        self.told_made(self.based(value(offset)?), texts.bytes(want)?)
    }

    // A step that takes bytes, or none.
    fn short_step(&self, texts: &Texts, words: &[&str]) -> Result<String, StepFault> {
        match words {
            ["built"] => told(self.alloc, self.builder.finish().map(|text| text.len())),
            ["finish", want] => self.told_made(self.builder.finish(), texts.bytes(want)?),
            [name, bytes] => bytes_step(self.alloc, name, texts.bytes(bytes)?.as_slice()),
            _ => Err(StepFault::Unknown),
        }
    }
}

impl Subject for BatchCases {
    fn new(alloc: Global) -> Self {
        BatchCases {
            alloc,
            builder: BatchBuilder::new(alloc, 0, -1, -1, -1),
        }
    }

    fn answer(&mut self, texts: &Texts, words: &[&str]) -> Result<String, StepFault> {
        let [name, given @ ..] = words else {
            return Err(StepFault::Unknown);
        };
        match *name {
            "build" => self.build(given),
            "push" => self.push_step(texts, given),
            "based" => self.based_step(texts, given),
            "marker" => self.marker_step(texts, given),
            "record" => record_step(self.alloc, texts, given),
            "flips" => flips_step(self.alloc, texts, given),
            _ => self.short_step(texts, words),
        }
    }
}
