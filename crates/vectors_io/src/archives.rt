// The calls on an archive.
use crate::numbers::read_bytes;
use lookup::LookupReply;
use summary::SummaryReply;

// The reply to the lookup of a value: the value, and the archive's bytes.
pub fn lookup(n: &[u64]) -> Option<[u64; 4]> {
    let mut buffer = [0u8; 256];
    let (&value, list) = n.split_first()?;
    let archive = read_bytes(list, &mut buffer)?;
    let r = LookupReply::from(lookup::lookup(archive, value));
    Some([r.refusal, r.line, r.found, r.position])
}

// The reply to the call for a line: its number, and the archive's bytes.
pub fn line(n: &[u64]) -> Option<[u64; 2]> {
    let mut buffer = [0u8; 256];
    let (&number, list) = n.split_first()?;
    let archive = read_bytes(list, &mut buffer)?;
    let part = archive_line::line_part(archive, number);
    Some([part.start as u64, part.length as u64])
}

// The reply to the call on the archive's bytes alone.
pub fn summary(n: &[u64]) -> Option<[u64; 4]> {
    let mut buffer = [0u8; 256];
    let archive = read_bytes(n, &mut buffer)?;
    let r = SummaryReply::from(summary::summary(archive));
    Some([r.refusal, r.line, r.line_count, r.total])
}
