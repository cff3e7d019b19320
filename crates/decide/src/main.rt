// Reads a question file from standard input, and says what it holds or why it is refused.
#![tactic(auto)]

use question_file::load::load;
use std::alloc::Global;
use std::io;
use std::io::Read;
use tables::{DifferenceEntry, EqualityEntry, MOST};

// A file is at most this long: what follows on standard input is ignored.
const LONGEST_FILE: u64 = 65_535;

fn read_file<R: Read + Drop>(heap: Global, input: R) -> io::Result<Vec<u8>> {
    let mut file = Vec::new(heap);
    input.take(LONGEST_FILE).read_to_end(&mut file)?;
    Ok(file)
}

fn main(rt: HostRuntime) -> io::Result<()> {
    let file = read_file(rt.alloc(), rt.stdin())?;
    let mut differences = vec![in rt.alloc(); DifferenceEntry::default(); MOST]?;
    let mut equalities = vec![in rt.alloc(); EqualityEntry::default(); MOST]?;
    match load(
        file.as_slice(),
        differences.as_mut_slice(),
        equalities.as_mut_slice(),
    ) {
        Ok(counts) => println!(rt; "loaded {counts}"),
        Err(fault) => println!(rt; "{fault}"),
    }
}

#[cfg(test)]
mod tests {
    use super::*;
    use std::test::Fail;

    // of so many bytes, so many are read
    const READ: [(usize, usize); 5] = [
        (0, 0),
        (1, 1),
        (65_534, 65_534),
        (65_535, 65_535),
        (65_537, 65_535),
    ];

    #[test]
    fn first_bytes(rt: HostRuntime) -> Result<(), Fail> {
        for (given, expected) in &READ {
            let input = vec![in rt.alloc(); 7u8; *given]?;
            let file = read_file(rt.alloc(), input.as_slice())?;
            assert_eq!(rt; file.len(), *expected);
        }
        Ok(())
    }
}
