// From the glyph ids in use, one to a line of a file, a Coverage table of OpenType, shown field by field.
#![tactic(auto)]

use anyhow::anyhow;
use coverage::{CoverageFault, coverage_table, glyph_set};
use fnv::fnv1a;
use scalar::read_at;
use std::alloc::{AllocError, Global};
use std::{env, fmt, fs, io};

const DEFAULT_INPUT: &str = "glyphs.txt";

// A line that is no glyph id.
#[derive(Drop)]
struct BadLine {
    number: usize,
    text: String,
}

impl fmt::Display for BadLine {
    fn fmt<W: fmt::Write>(&self, f: &mut fmt::Formatter<W>) -> fmt::Result {
        let BadLine { number, text } = self;
        write!(
            f,
            "line {number}: expected a glyph id below 65536, found \"{text}\""
        )
    }
}

// What a file of glyph ids says, line by line.
#[derive(Drop)]
struct GlyphFile {
    ids: Vec<u16>,
    bad: Vec<BadLine>,
}

// The id on a line, spaces around it aside.
fn glyph_id(line: &str) -> Option<u16> {
    line.trim().parse::<u16>().ok()
}

fn read_lines(heap: Global, text: &str) -> Result<GlyphFile, AllocError> {
    let mut ids = Vec::new(heap);
    let mut bad = Vec::new(heap);
    for (i, line) in text.lines().enumerate() {
        match glyph_id(line) {
            Some(id) => ids.push(id)?,
            None => {
                let text = String::from_str(heap, line)?;
                let number = i.saturating_add(1);
                bad.push(BadLine { number, text })?
            }
        }
    }
    Ok(GlyphFile { ids, bad })
}

fn report_bad_lines(rt: &HostRuntime, path: &str, bad: &[BadLine]) -> io::Result<()> {
    for line in bad {
        println!(rt; "{path}, {line}")?;
    }
    Ok(())
}

// One uint16 of the table: its place, its bytes, its name and its value.
fn show_field<N: fmt::Display + Drop>(
    rt: &HostRuntime,
    table: &[u8],
    place: usize,
    name: N,
) -> io::Result<()> {
    let Some(value) = read_at::<u16>(table, place) else {
        return println!(rt; "{place:>6}  past the end  {name}");
    };
    let [high, low] = value.to_be_bytes();
    println!(rt; "{place:>6}  {high:02x} {low:02x}  {name} = {value}")
}

fn show_table(rt: &HostRuntime, table: &[u8]) -> io::Result<()> {
    println!(rt; " place  bytes  field")?;
    show_field(rt, table, 0, "coverageFormat")?;
    show_field(rt, table, 2, "glyphCount")?;
    for (i, place) in (4..table.len()).step_by(2).enumerate() {
        show_field(rt, table, place, format_args!("glyphArray[{i}]"))?;
    }
    print!(rt; "table ")?;
    for byte in table {
        print!(rt; "{byte:02x}")?;
    }
    println!(rt; "")
}

fn build(rt: &HostRuntime, ids: Vec<u16>) -> anyhow::Result<()> {
    let lines = ids.len();
    let glyphs = glyph_set(ids);
    println!(rt; "{lines} ids read, {} glyphs in use", glyphs.len())?;
    match coverage_table(rt.alloc(), &glyphs) {
        Ok(table) => {
            show_table(rt, &table)?;
            let hash = fnv1a(&table);
            println!(rt; "{} bytes, FNV-1a {hash:016x}", table.len())?;
            Ok(())
        }
        Err(fault @ CoverageFault::TooManyGlyphs(_)) => {
            println!(rt; "{fault}")?;
            Err(anyhow!("nothing was written"))
        }
        Err(fault @ CoverageFault::NoMemory) => Err(anyhow!("{fault}: nothing was written")),
    }
}

fn run(rt: &HostRuntime) -> anyhow::Result<()> {
    let path = match env::args(rt)?.nth(1) {
        Some(path) => path,
        None => String::from_str(rt.alloc(), DEFAULT_INPUT)?,
    };
    let text = fs::read_to_string(rt, path.as_str())?;
    let file = read_lines(rt.alloc(), text.as_str())?;
    if !file.bad.is_empty() {
        report_bad_lines(rt, path.as_str(), &file.bad)?;
        return Err(anyhow!("nothing was written"));
    }
    let GlyphFile { ids, bad: _ } = file;
    build(rt, ids)
}

fn main(rt: HostRuntime) -> anyhow::Result<()> {
    run(&rt)
}
