// Worked examples as tests: the boundary words of each kind, and what level and grades pick and refuse.
#![tactic(auto)]

#[cfg(test)]
mod tests {
    use family::{Family, Span, extend};
    use grades::Grades;
    use level::Level;
    use std::test::Fail;
    use words::{Kind, Reason, Refusal, Word};

    // A kind, the number at an end of its range, the number just beyond, and the word.
    const ENDS: [(Kind, i32, i32, u32); 28] = [
        (Kind::Low, -1_000_000, -1_000_001, 0x100F_4240),
        (Kind::Low, 1_000_000, 1_000_001, 0x102D_C6C0),
        (Kind::High, -1_000_000, -1_000_001, 0x200F_4240),
        (Kind::High, 1_000_000, 1_000_001, 0x202D_C6C0),
        (Kind::Mask, 0, -1, 0x3000_0000),
        (Kind::Mask, 268_435_455, 268_435_456, 0x3FFF_FFFF),
        (Kind::Start, 0, -1, 0x4000_0000),
        (Kind::Start, 268_435_455, 268_435_456, 0x4FFF_FFFF),
        (Kind::Batch, 0, -1, 0x5000_0000),
        (Kind::Batch, 268_435_455, 268_435_456, 0x5FFF_FFFF),
        (Kind::End, 0, -1, 0x6000_0000),
        (Kind::End, 268_435_455, 268_435_456, 0x6FFF_FFFF),
        (Kind::Level, -1_000_000, -1_000_001, 0x700F_4240),
        (Kind::Level, 1_000_000, 1_000_001, 0x702D_C6C0),
        (Kind::Pivot, 0, -1, 0x8000_0000),
        (Kind::Pivot, 268_435_455, 268_435_456, 0x8FFF_FFFF),
        (Kind::Height, -1_000_000, -1_000_001, 0x900F_4240),
        (Kind::Height, 1_000_000, 1_000_001, 0x902D_C6C0),
        (Kind::Rise, -2_000_000, -2_000_001, 0xA000_0000),
        (Kind::Rise, 2_000_000, 2_000_001, 0xA03D_0900),
        (Kind::Over, 1, 0, 0xB000_0001),
        (Kind::Over, 255, 256, 0xB000_00FF),
        (Kind::Grade, 0, -1, 0xC000_0000),
        (Kind::Grade, 27, 28, 0xC000_001B),
        (Kind::Tape, 0, -1, 0xE000_0000),
        (Kind::Tape, 13, 14, 0xE000_000D),
        (Kind::Count, 0, -1, 0xF000_0000),
        (Kind::Count, 1_000_000, 1_000_001, 0xF00F_4240),
    ];

    #[test]
    fn boundary_words(rt: HostRuntime) -> Result<(), Fail> {
        for (kind, number, beyond, bits) in ENDS {
            let word = Word::try_from(bits).map_err(|_| "no word")?;
            assert_eq!(rt; word.kind, kind);
            assert_eq!(rt; word.number, number);
            assert_eq!(rt; u32::from(word), bits);
            assert!(rt; Word::new(kind, number).is_some() && Word::new(kind, beyond).is_none());
        }
        Ok(())
    }

    #[test]
    fn words_of_no_kind_or_out_of_range(rt: HostRuntime) {
        for bits in [
            0x0000_0000u32,
            0xD000_0001,
            0x100F_423F,
            0x102D_C6C1,
            0xA03D_0901,
            0xB000_0000,
            0xB000_0100,
            0xC000_001C,
            0xE000_000E,
        ] {
            assert!(rt; Word::try_from(bits).is_err());
        }
    }

    // The row of a band.
    fn band(low: i32, high: i32) -> Result<[u32; 2], Fail> {
        let low = Word::new(Kind::Low, low).ok_or("low is out of range")?;
        let high = Word::new(Kind::High, high).ok_or("high is out of range")?;
        Ok([u32::from(low), u32::from(high)])
    }

    // What level picks after a run of bands at ticks 0, 1, ..
    fn level_of(bands: &[(i32, i32)]) -> Result<i32, Fail> {
        let mut level = Level::new();
        for (tick, (low, high)) in (0u32..).zip(bands) {
            extend(&mut level, tick, &band(*low, *high)?)?;
        }
        let mut slot = [0u32; 1];
        level.pick(&mut slot)?;
        Ok(Kind::Level.read(slot[0]).ok_or("no level")?)
    }

    #[test]
    fn levels_are_rounded_down(rt: HostRuntime) -> Result<(), Fail> {
        assert_eq!(rt; level_of(&[])?, 0);
        assert_eq!(rt; level_of(&[(0, 2), (1, 3)])?, 1);
        assert_eq!(rt; level_of(&[(3, 5)])?, 4);
        assert_eq!(rt; level_of(&[(9, 11), (9, 11)])?, 10);
        assert_eq!(rt; level_of(&[(-1, 0)])?, -1);
        assert_eq!(rt; level_of(&[(-4, -1)])?, -3);
        assert_eq!(rt; level_of(&[(-1_000_000, -999_999)])?, -1_000_000);
        Ok(())
    }

    #[test]
    fn level_refuses_in_order(rt: HostRuntime) -> Result<(), Fail> {
        let mut level = Level::new();
        assert_eq!(rt;
            extend(&mut level, 268_435_456, &[]),
            Err(Refusal::new(Reason::BadTick))
        );
        assert_eq!(rt;
            extend(&mut level, 0, &[]),
            Err(Refusal::new(Reason::RowLength))
        );
        assert_eq!(rt;
            extend(&mut level, 0, &[0x100F_423F, 0]),
            Err(Refusal::at(Reason::BadWord, 0))
        );
        assert_eq!(rt;
            extend(&mut level, 0, &[0x101E_8480, 0]),
            Err(Refusal::at(Reason::BadWord, 1))
        );
        assert_eq!(rt;
            extend(&mut level, 0, &band(3, 2)?),
            Err(Refusal::new(Reason::NoChoice))
        );
        assert_eq!(rt; extend(&mut level, 0, &band(2, 2)?), Ok(()));
        assert_eq!(rt;
            extend(&mut level, 0, &band(2, 2)?),
            Err(Refusal::new(Reason::Unfitting))
        );
        assert_eq!(rt;
            extend(&mut level, 1, &band(3, 4)?),
            Err(Refusal::new(Reason::Unfitting))
        );
        assert_eq!(rt; extend(&mut level, 268_435_455, &band(0, 2)?), Ok(()));
        Ok(())
    }

    // What grades picks after a run of masks at ticks 0, 1, ..
    fn grade_of(masks: &[u32]) -> Result<u32, Fail> {
        let mut grades = Grades::new();
        for (tick, mask) in (0u32..).zip(masks) {
            extend(&mut grades, tick, &[0x3000_0000 | *mask])?;
        }
        let mut slot = [0u32; 1];
        grades.pick(&mut slot)?;
        Ok(slot[0])
    }

    #[test]
    fn the_lowest_grade_is_picked(rt: HostRuntime) -> Result<(), Fail> {
        assert_eq!(rt; grade_of(&[])?, 0xC000_0000);
        assert_eq!(rt; grade_of(&[6, 4])?, 0xC000_0002);
        assert_eq!(rt; grade_of(&[2])?, 0xC000_0001);
        assert_eq!(rt; grade_of(&[0x0800_0000])?, 0xC000_001B);
        let mut grades = Grades::new();
        assert_eq!(rt;
            extend(&mut grades, 0, &[0x3000_0000]),
            Err(Refusal::new(Reason::NoChoice))
        );
        assert_eq!(rt; extend(&mut grades, 0, &[0x3000_0006]), Ok(()));
        assert_eq!(rt;
            extend(&mut grades, 1, &[0x3000_0001]),
            Err(Refusal::new(Reason::Unfitting))
        );
        Ok(())
    }

    #[test]
    fn values_are_read_from_words(rt: HostRuntime) {
        let mut row = [9u32; 1];
        assert_eq!(rt;
            Level::value(&[0x701E_8481], Span::new(3, 5), 4, &mut row),
            Ok(())
        );
        assert_eq!(rt; row, [0x701E_8481]);
        assert_eq!(rt;
            Level::value(&[0x701E_8481], Span::new(3, 5), 6, &mut row),
            Err(Refusal::new(Reason::NoSegment))
        );
        assert_eq!(rt; row, [0]);
        assert_eq!(rt;
            Level::value(&[0x101E_8481], Span::new(3, 5), 9, &mut row),
            Err(Refusal::new(Reason::Unlawful))
        );
        assert_eq!(rt;
            Level::value(&[0x701E_8481], Span::new(5, 3), 4, &mut row),
            Err(Refusal::new(Reason::NoSegment))
        );
        let mut wide = [9u32; 2];
        assert_eq!(rt;
            Level::value(&[0x701E_8481], Span::new(3, 5), 268_435_456, &mut wide),
            Err(Refusal::new(Reason::WordsLength))
        );
        assert_eq!(rt; wide, [0, 0]);
    }
}
