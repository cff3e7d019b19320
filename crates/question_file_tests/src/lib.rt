// Tests of the loader on files that are written out in hexadecimal, and on files at the edges of the limits.
#![tactic(auto)]

#[cfg(test)]
mod tests {
    use question_file::check::{Room, check as check_file};
    use question_file::load::load;
    use refusals::Layer;
    use std::alloc::{AllocError, Global};
    use std::test::Fail;
    use tables::{DifferenceEntry, EqualityEntry};

    const SPARE_DIFFERENCE: DifferenceEntry = DifferenceEntry {
        a: 77,
        b: 78,
        limit: 79,
    };

    const SPARE_EQUALITY: EqualityEntry = EqualityEntry { a: 87, b: 88 };

    // the bytes of a text of hexadecimal digits, in which other characters are passed over
    fn bytes_of(heap: Global, text: &str) -> Result<Vec<u8>, AllocError> {
        let mut bytes = Vec::new(heap);
        let mut high = None;
        for digit in text.chars().filter_map(|c| c.to_digit(16)) {
            match high {
                None => high = Some(digit),
                Some(first) => {
                    bytes.push(((first & 15) << 4 | digit & 15) as u8)?;
                    high = None;
                }
            }
        }
        Ok(bytes)
    }

    // what the program says of a file, with tables of so many places
    fn answer(
        heap: Global,
        file: &[u8],
        differences: usize,
        equalities: usize,
    ) -> Result<String, AllocError> {
        let mut differences = vec![in heap; SPARE_DIFFERENCE; differences]?;
        let mut equalities = vec![in heap; SPARE_EQUALITY; equalities]?;
        match load(file, differences.as_mut_slice(), equalities.as_mut_slice()) {
            Ok(counts) => format!(in heap; "loaded {counts}"),
            Err(fault) => format!(in heap; "{fault}"),
        }
    }

    // a file, and what is said of it where each table has two places
    const CASES: [(&str, &str); 46] = [
        // the worked file has three difference entries
        ("01 0006 0003 0000 0000", "loaded 3 0 0 0 0 0"),
        ("01 0006 0002 0003 0004", "loaded 2 3 4 0 0 0"),
        (
            "01 0006 0002 0000 0000 02 0008 0000 0001 FFFFFFFE 04 0002 0000",
            "loaded 2 0 0 1 0 1",
        ),
        (
            "01 0006 0000 0002 0000 03 0004 0000 0001 04 0000",
            "loaded 0 2 0 0 1 1",
        ),
        (
            "01 0006 0001 0002 0003 02 0008 0000 0000 00000000 03 0004 0001 0000 04 0004 0000 FFFF 04 0000",
            "loaded 1 2 3 1 1 2",
        ),
        // torn: no byte, one, two, a body cut short, and behind a whole field
        ("", "refused 1 0"),
        ("01", "refused 1 0"),
        ("01 00", "refused 1 0"),
        ("01 0006", "refused 1 0"),
        ("01 0006 0003 0000 00", "refused 1 0"),
        ("01 0006 0003 0000 0000 02", "refused 1 9"),
        ("01 0006 0003 0000 0000 02 00", "refused 1 9"),
        (
            "01 0006 0003 0000 0000 02 0008 0000 0001 FFFFFF",
            "refused 1 9",
        ),
        (
            "01 0006 0003 0000 0000 04 0002 0000 04 0002 00",
            "refused 1 14",
        ),
        // torn comes before any other ground of the same field
        ("09 FFFF", "refused 1 0"),
        // disordered: an unknown tag, another first tag, a second tag 1, a tag below the one before
        ("00 0000", "refused 2 0"),
        ("05 0000", "refused 2 0"),
        ("02 0008 0000 0001 FFFFFFFE", "refused 2 0"),
        ("04 0000", "refused 2 0"),
        (
            "01 0006 0003 0000 0000 01 0006 0003 0000 0000",
            "refused 2 9",
        ),
        ("01 0006 0003 0000 0000 05 0000", "refused 2 9"),
        (
            "01 0006 0003 0003 0000 03 0004 0000 0001 02 0008 0000 0001 FFFFFFFE",
            "refused 2 16",
        ),
        (
            "01 0006 0003 0003 0000 04 0000 03 0004 0000 0001",
            "refused 2 12",
        ),
        (
            "01 0006 0003 0003 0000 04 0000 01 0006 0003 0003 0000",
            "refused 2 12",
        ),
        // disordered comes before a wrong length
        ("01 0006 0003 0000 0000 01 0000", "refused 2 9"),
        // wrong length, a byte more and a byte less, and an odd clause
        ("01 0005 0003 0000 00", "refused 3 0"),
        ("01 0007 0003 0000 0000 00", "refused 3 0"),
        (
            "01 0006 0003 0000 0000 02 0007 0000 0001 FFFFFF",
            "refused 3 9",
        ),
        (
            "01 0006 0003 0000 0000 02 0009 0000 0001 FFFFFFFE 00",
            "refused 3 9",
        ),
        ("01 0006 0000 0003 0000 03 0003 0000 00", "refused 3 9"),
        ("01 0006 0000 0003 0000 03 0005 0000 0001 00", "refused 3 9"),
        ("01 0006 0003 0000 0000 04 0001 00", "refused 3 9"),
        ("01 0006 0003 0000 0000 04 0003 0000 00", "refused 3 9"),
        // too many: variables in all, and a third entry where the table has two places
        ("01 0006 0200 0000 0000", "loaded 512 0 0 0 0 0"),
        ("01 0006 0100 00FF 0002", "refused 4 0"),
        ("01 0006 0000 0000 0201", "refused 4 0"),
        ("01 0006 FFFF FFFF FFFF", "refused 4 0"),
        (
            "01 0006 0001 0000 0000 02 0008 0000 0000 00000000 02 0008 0000 0000 00000000 02 0008 0000 0000 00000000",
            "refused 4 31",
        ),
        (
            "01 0006 0000 0001 0000 03 0004 0000 0000 03 0004 0000 0000 03 0004 0000 0000",
            "refused 4 23",
        ),
        // no such variable, first or second, in either table
        (
            "01 0006 0003 0009 0000 02 0008 0003 0000 00000000",
            "refused 5 9",
        ),
        (
            "01 0006 0003 0009 0000 02 0008 0000 0003 00000000",
            "refused 5 9",
        ),
        ("01 0006 0009 0003 0000 03 0004 0003 0000", "refused 5 9"),
        ("01 0006 0009 0003 0000 03 0004 0000 0003", "refused 5 9"),
        // a missing variable comes before a limit out of range
        (
            "01 0006 0003 0000 0000 02 0008 0003 0000 7FFFFFFF",
            "refused 5 9",
        ),
        // limits: 1,000,000 is F4240 and -1,000,000 is FFF0BDC0
        (
            "01 0006 0001 0000 0000 02 0008 0000 0000 000F4241",
            "refused 6 9",
        ),
        (
            "01 0006 0001 0000 0000 02 0008 0000 0000 FFF0BDBF",
            "refused 6 9",
        ),
    ];

    #[test]
    fn files_and_answers(rt: HostRuntime) -> Result<(), Fail> {
        let heap = rt.alloc();
        for (text, expected) in &CASES {
            let file = bytes_of(heap, text)?;
            let said = answer(heap, file.as_slice(), 2, 2)?;
            assert_eq!(rt; said.as_str(), *expected, "{}", *text);
        }
        Ok(())
    }

    const WORKED: &str =
        "01 0006 0003 0000 0000 02 0008 0000 0001 FFFFFFFE 02 0008 0001 0002 FFFFFFFD 02 0008 0002 0000 00000004 04 0002 0000";

    #[test]
    fn tables_are_filled_at_their_fronts(rt: HostRuntime) -> Result<(), Fail> {
        let heap = rt.alloc();
        let file = bytes_of(heap, WORKED)?;
        let mut differences = [SPARE_DIFFERENCE; 5];
        let mut equalities = [SPARE_EQUALITY; 2];
        let counts = load(file.as_slice(), &mut differences, &mut equalities)
            .ok()
            .ok_or("refused")?;
        assert_eq!(rt; format!(in heap; "{counts}")?.as_str(), "3 0 0 3 0 1");
        assert_eq!(rt;
            differences[0],
            DifferenceEntry {
                a: 0,
                b: 1,
                limit: -2,
            }
        );
        assert_eq!(rt;
            differences[1],
            DifferenceEntry {
                a: 1,
                b: 2,
                limit: -3,
            }
        );
        assert_eq!(rt;
            differences[2],
            DifferenceEntry {
                a: 2,
                b: 0,
                limit: 4,
            }
        );
        assert_eq!(rt; differences[3], SPARE_DIFFERENCE);
        assert_eq!(rt; differences[4], SPARE_DIFFERENCE);
        assert_eq!(rt; equalities[0], SPARE_EQUALITY);
        Ok(())
    }

    #[test]
    fn both_tables_are_filled(rt: HostRuntime) -> Result<(), Fail> {
        let heap = rt.alloc();
        let file = bytes_of(
            heap,
            "01 0006 0101 00FF 0000 02 0008 0100 0001 FFF0BDC0 02 0008 0002 0003 000F4240 03 0004 00FE 0001 03 0004 0002 0003",
        )?;
        let mut differences = [SPARE_DIFFERENCE; 2];
        let mut equalities = [SPARE_EQUALITY; 3];
        let counts = load(file.as_slice(), &mut differences, &mut equalities)
            .ok()
            .ok_or("refused")?;
        assert_eq!(rt; format!(in heap; "{counts}")?.as_str(), "257 255 0 2 2 0");
        assert_eq!(rt;
            differences[0],
            DifferenceEntry {
                a: 256,
                b: 1,
                limit: -1_000_000,
            }
        );
        assert_eq!(rt;
            differences[1],
            DifferenceEntry {
                a: 2,
                b: 3,
                limit: 1_000_000,
            }
        );
        assert_eq!(rt; equalities[0], EqualityEntry { a: 254, b: 1 });
        assert_eq!(rt; equalities[1], EqualityEntry { a: 2, b: 3 });
        assert_eq!(rt; equalities[2], SPARE_EQUALITY);
        Ok(())
    }

    #[test]
    fn refused_file_changes_no_table(rt: HostRuntime) -> Result<(), Fail> {
        let file = bytes_of(
            rt.alloc(),
            "01 0006 0003 0003 0000 02 0008 0000 0001 00000001 03 0004 0000 0001 03 0004 0000 0003",
        )?;
        let mut differences = [SPARE_DIFFERENCE; 2];
        let mut equalities = [SPARE_EQUALITY; 2];
        let fault = load(file.as_slice(), &mut differences, &mut equalities)
            .err()
            .ok_or("loaded")?;
        assert_eq!(rt; fault.refusal.number(), 5);
        assert_eq!(rt; fault.layer, Layer::Table);
        assert_eq!(rt; fault.offset, 27);
        assert_eq!(rt; differences[0], SPARE_DIFFERENCE);
        assert_eq!(rt; equalities[0], SPARE_EQUALITY);
        Ok(())
    }

    #[test]
    fn layers(rt: HostRuntime) -> Result<(), Fail> {
        for (text, layer) in &[
            ("01", Layer::Field),
            ("02 0000", Layer::Field),
            ("01 0000", Layer::Field),
            ("01 0006 0200 0001 0000", Layer::Table),
            (
                "01 0006 0001 0000 0000 02 0008 0000 0001 00000000",
                Layer::Table,
            ),
            (
                "01 0006 0001 0000 0000 02 0008 0000 0000 7FFFFFFF",
                Layer::Table,
            ),
        ] {
            let file = bytes_of(rt.alloc(), text)?;
            let fault = check_file(
                file.as_slice(),
                Room {
                    differences: 512,
                    equalities: 512,
                },
            )
            .err()
            .ok_or("accepted")?;
            assert_eq!(rt; fault.layer, *layer, "{}", *text);
        }
        Ok(())
    }

    // a file with so many switches, difference entries and equality entries; the loops only repeat, and index nothing
    fn file_of(
        heap: Global,
        switches: u16,
        differences: usize,
        equalities: usize,
    ) -> Result<Vec<u8>, AllocError> {
        let mut file = bytes_of(heap, "01 0006 0001 0001")?;
        file.extend_from_slice(&switches.to_be_bytes())?;
        for _ in 0..differences {
            file.extend_from_slice(&[2, 0, 8, 0, 0, 0, 0, 0, 0, 0, 0])?;
        }
        for _ in 0..equalities {
            file.extend_from_slice(&[3, 0, 4, 0, 0, 0, 0])?;
        }
        Ok(file)
    }

    // switches, difference entries, equality entries, and what is said of them
    const ATOMS: [(u16, usize, usize, &str); 8] = [
        (0, 512, 0, "loaded 1 1 0 512 0 0"),
        (0, 513, 0, "refused 4 5641"),
        (0, 0, 512, "loaded 1 1 0 0 512 0"),
        (0, 0, 513, "refused 4 3593"),
        (0, 256, 256, "loaded 1 1 0 256 256 0"),
        (0, 256, 257, "refused 4 4617"),
        (510, 1, 1, "loaded 1 1 510 1 1 0"),
        (510, 1, 2, "refused 4 27"),
    ];

    #[test]
    fn most_atoms(rt: HostRuntime) -> Result<(), Fail> {
        let heap = rt.alloc();
        for (switches, differences, equalities, expected) in &ATOMS {
            let file = file_of(heap, *switches, *differences, *equalities)?;
            let said = answer(heap, file.as_slice(), 600, 600)?;
            assert_eq!(rt; said.as_str(), *expected);
        }
        Ok(())
    }
}
