//! Tests of the public calls of the block, over lattices, layers and piles of them, run on examples.
#![tactic(auto)]

#[cfg(test)]
mod tests {
    use blocks::block::Block;
    use blocks::calls::{Answer, Call, Decision};
    use blocks::runs::crosscheck;
    use codes::even_weight::EvenWeight;
    use codes::listed::Listed;
    use finders::points::{PointFinder, PointTester};
    use finders::refusals::Refusal;
    use lattice_layers::construction_a::ConstructionA;
    use lattice_layers::e8::{e8_by_glue, e8_by_words};
    use lattice_layers::glue::Glue;
    use lattice_layers::join::Join;
    use lattice_layers::scale::Scale;
    use lattices::lattice_d::LatticeD;
    use lattices::lattice_z::LatticeZ;

    // What stands where an answer is to come: no call answers it.
    const UNWRITTEN: Answer = Answer::Clear(Ok(99));

    // What an opening at this step is answered.
    fn opening<F: PointFinder + Drop>(finder: F, step: u32) -> Result<(), Refusal> {
        Block::new(finder).open(step)
    }

    // Whether the block opens at step 1 and at this step, and not at the next.
    fn opens_up_to<F: PointFinder + Drop>(finder: F, most: u32) -> bool {
        let mut block = Block::new(finder);
        block.open(1) == Ok(())
            && block.open(most) == Ok(())
            && block.open(most.saturating_add(1)) == Err(Refusal::Depth)
    }

    // Whether a decide into this place is refused by this number and leaves the place.
    fn refuses_to_decide<F: PointFinder, const N: usize>(
        block: &Block<F>,
        before: [i32; N],
        refusal: Refusal,
    ) -> bool {
        let mut place = before;
        block.decide(&mut place) == Err(refusal) && place == before
    }

    // Whether two senses at step 10 decide this point and its total.
    fn decides<F: PointFinder + Drop, const N: usize>(
        finder: F,
        senses: [[i16; N]; 2],
        point: [i32; N],
        total: u64,
    ) -> bool {
        let mut block = Block::new(finder);
        let mut place = [9; N];
        block.open(10) == Ok(())
            && block.sense(&senses[0]) == Ok(1)
            && block.sense(&senses[1]) == Ok(2)
            && block.decide(&mut place) == Ok(total)
            && place == point
    }

    // Whether the two senses of the worked pair stand in a block of two cells, and nothing else.
    fn holds_the_worked_pair<F: PointFinder>(block: &Block<F>) -> bool {
        let mut place = [9; 2];
        block.count() == 2 && block.decide(&mut place) == Ok(102) && place == [1, 1]
    }

    // A block over D of two cells with the worked pair.
    fn worked_pair() -> Block<LatticeD> {
        let mut block = Block::new(LatticeD::new(2));
        let calls = [Call::Sense(&[15, 4]), Call::Sense(&[5, 6])];
        // what it answers is seen where the block is used
        let _ = block.run(10, &calls, &mut [UNWRITTEN; 2]);
        block
    }

    // The answer of a decide.
    fn decided(numbers: &[i32], total: u64) -> Answer {
        let mut point = [0; 32];
        for (coordinate, number) in point.iter_mut().zip(numbers) {
            *coordinate = *number;
        }
        Answer::Decide(Ok(Decision { point, total }))
    }

    // Whether every call is answered 13, whatever it is given.
    fn is_closed<F: PointFinder>(block: &mut Block<F>) -> bool {
        block.count() == 0
            && block.sense(&[]) == Err(Refusal::Closed)
            && block.sense(&[15, 4]) == Err(Refusal::Closed)
            && block.sense(&[0; 33]) == Err(Refusal::Closed)
            && block.clear() == Err(Refusal::Closed)
            && refuses_to_decide(block, [], Refusal::Closed)
            && refuses_to_decide(block, [9; 2], Refusal::Closed)
            && refuses_to_decide(block, [9; 40], Refusal::Closed)
            && block.make(Call::Sense(&[0; 33])) == Answer::Sense(Err(Refusal::Closed))
            && block.make(Call::Clear) == Answer::Clear(Err(Refusal::Closed))
            && block.make(Call::Decide(40)) == Answer::Decide(Err(Refusal::Closed))
            && block.count() == 0
    }

    #[test]
    fn a_closed_block_answers_13_whatever_it_is_given(rt: HostRuntime) {
        let mut block = Block::new(LatticeD::new(2));
        assert!(rt; is_closed(&mut block));
        assert_eq!(rt; block.open(16385), Err(Refusal::Depth));
        assert!(rt; is_closed(&mut block));
        let mut unfit = Block::new(LatticeZ::new(33));
        assert_eq!(rt; unfit.open(10), Err(Refusal::Width));
        assert!(rt; is_closed(&mut unfit));
    }

    #[test]
    fn an_opening_is_refused_in_the_stated_order(rt: HostRuntime) {
        let z = LatticeZ::new(2);
        for step in [0, 1, 16385] {
            assert_eq!(rt; opening(LatticeZ::new(33), step), Err(Refusal::Width));
            assert_eq!(rt; opening(Scale::new(z, 1), step), Err(Refusal::Factor));
            assert_eq!(rt;
                opening(Glue::new(z, &[&[1024, 0]]), step),
                Err(Refusal::Exhausted)
            );
        }
        // no step is taken here, for few readings and for few steps, but 0 is refused first
        let few_readings = Glue::new(z, &[&[1023, 0]]);
        let few_steps = Scale::new(Scale::new(z, 1024), 17);
        assert_eq!(rt; opening(few_readings, 0), Err(Refusal::Step));
        assert_eq!(rt; opening(few_readings, 1), Err(Refusal::Depth));
        assert_eq!(rt; opening(few_steps, 0), Err(Refusal::Step));
        assert_eq!(rt; opening(few_steps, 1), Err(Refusal::Depth));
        assert_eq!(rt; opening(z, 4294967295), Err(Refusal::Depth));
    }

    #[test]
    fn a_block_opens_up_to_the_step_that_64_senses_leave(rt: HostRuntime) {
        assert!(rt; opens_up_to(LatticeZ::new(32), 16384));
        assert!(rt; opens_up_to(LatticeD::new(1), 16384));
        assert!(rt; opens_up_to(e8_by_glue(), 8192));
        assert!(rt; opens_up_to(e8_by_words(), 16384));
        assert!(rt; opens_up_to(Scale::new(LatticeZ::new(2), 3), 5461));
        let few_steps = Scale::new(Scale::new(LatticeZ::new(2), 1024), 16);
        assert!(rt; opens_up_to(few_steps, 1));
    }

    #[test]
    fn a_block_opens_where_64_of_the_largest_readings_fit(rt: HostRuntime) {
        // readings up to 2^30 - 1022 * 2^20, which is 2097152
        let just_enough = Glue::new(LatticeZ::new(1), &[&[1022]]);
        assert_eq!(rt; just_enough.reading_limit(), 2097152);
        assert!(rt; opens_up_to(just_enough, 16384));
        // steps up to 2^20 / 528, which is 1985; readings up to 6 * 2^20 less 1985 for each of the reach
        let below = Scale::new(Glue::new(LatticeZ::new(1), &[&[1018]]), 528);
        let one_too_few = Glue::new(below, &[&[1024], &[1024], &[65]]);
        assert_eq!(rt; one_too_few.reading_limit(), 2097151);
        assert_eq!(rt; one_too_few.step_limit(), 1985);
        assert_eq!(rt; opening(one_too_few, 1), Err(Refusal::Depth));
        assert_eq!(rt; opening(one_too_few, 32), Err(Refusal::Depth));
        let enough = Glue::new(below, &[&[1024], &[-1024], &[64]]);
        assert_eq!(rt; enough.reading_limit(), 2099136);
        assert!(rt; opens_up_to(enough, 31));
    }

    #[test]
    fn senses_are_decided_over_any_finder(rt: HostRuntime) {
        assert!(rt; decides(LatticeD::new(2), [[15, 4], [5, 6]], [1, 1], 102));
        assert!(rt; decides(LatticeZ::new(2), [[15, 4], [-8, 9]], [0, 1], 326));
        let near_ones = [[12, 9, 1, -2, 11, 10, 3, 20], [9, 12, -3, 2, 8, 11, -4, 18]];
        assert!(rt; decides(e8_by_words(), near_ones, [1, 1, 0, 0, 1, 1, 0, 2], 63));
        assert!(rt; decides(e8_by_glue(), near_ones, [1, 1, -1, 1, 1, 1, -1, 1], 763));
        let joined = Join::new(LatticeD::new(2), LatticeZ::new(1));
        let pile = Glue::new(Scale::new(joined, 2), &[&[1, 1, 1]]);
        assert!(rt; opens_up_to(pile, 8192));
        assert!(rt; decides(pile, [[12, -9, 33], [9, -12, 24]], [2, -2, 2], 555));
        let listed = ConstructionA::new(Listed::new(3, &[5, 2]));
        let pile = Glue::new(Scale::new(listed, 3), &[&[1, 0, -1]]);
        assert!(rt; opens_up_to(pile, 5461));
        assert!(rt; decides(pile, [[12, 31, -8], [7, 28, -14]], [1, 3, -1], 38));
    }

    #[test]
    fn a_refused_call_changes_nothing(rt: HostRuntime) {
        let mut block = worked_pair();
        let lists: [&[i16]; 5] = [&[], &[5], &[5; 3], &[5; 33], &[5; 40]];
        for readings in lists {
            assert_eq!(rt; block.sense(readings), Err(Refusal::Length));
            assert!(rt; holds_the_worked_pair(&block));
        }
        assert!(rt; refuses_to_decide(&block, [], Refusal::Length));
        assert!(rt; refuses_to_decide(&block, [9], Refusal::Length));
        assert!(rt; refuses_to_decide(&block, [9; 3], Refusal::Length));
        assert!(rt; refuses_to_decide(&block, [9; 40], Refusal::Length));
        assert_eq!(rt; block.open(0), Err(Refusal::Step));
        assert_eq!(rt; block.open(16385), Err(Refusal::Depth));
        assert!(rt; holds_the_worked_pair(&block));
        // nothing stands after a clear, nor after an opening that is granted, be it at the same step
        assert_eq!(rt; block.clear(), Ok(2));
        assert_eq!(rt; block.clear(), Ok(0));
        assert!(rt; refuses_to_decide(&block, [9; 3], Refusal::Length));
        assert!(rt; refuses_to_decide(&block, [9; 2], Refusal::Empty));
        let mut block = worked_pair();
        assert_eq!(rt; block.open(10), Ok(()));
        assert_eq!(rt; block.count(), 0);
        assert!(rt; refuses_to_decide(&block, [9; 3], Refusal::Length));
        assert!(rt; refuses_to_decide(&block, [9; 2], Refusal::Empty));
    }

    // Whether the block takes 64 senses of one cell, and then is full.
    fn fills<F: PointFinder>(block: &mut Block<F>) -> bool {
        for count in 1..65 {
            if block.sense(&[7]) != Ok(count) {
                return false;
            }
        }
        block.sense(&[7]) == Err(Refusal::Full) && block.count() == 64
    }

    #[test]
    fn the_64th_sense_is_granted_and_the_65th_is_not(rt: HostRuntime) {
        let mut block = Block::new(LatticeZ::new(1));
        let mut place = [9];
        assert_eq!(rt; block.open(3), Ok(()));
        assert!(rt; fills(&mut block));
        assert_eq!(rt; block.sense(&[-500]), Err(Refusal::Full));
        assert_eq!(rt; block.sense(&[]), Err(Refusal::Length));
        assert_eq!(rt; block.sense(&[7; 2]), Err(Refusal::Length));
        assert_eq!(rt; block.decide(&mut place), Ok(64));
        assert_eq!(rt; place, [2]);
        assert_eq!(rt; block.clear(), Ok(64));
        assert!(rt; fills(&mut block));
        assert_eq!(rt; block.decide(&mut place), Ok(64));
    }

    // The squares of (reading - step * coordinate), added one by one; nothing here comes near the ends of 64 bits.
    fn total_of<const N: usize>(senses: &[[i16; N]; 64], step: u32, point: &[i32; N]) -> u64 {
        let mut total = 0u64;
        for readings in senses {
            for (reading, coordinate) in readings.iter().zip(point) {
                let level = i64::from(step).saturating_mul(i64::from(*coordinate));
                let size = i64::from(*reading).saturating_sub(level).unsigned_abs();
                total = total.saturating_add(size.saturating_mul(size));
            }
        }
        total
    }

    // Whether no point of the set that differs by one in one cell or in two, or by two in one, has a smaller total.
    fn no_neighbour_has_less<F: PointTester, const N: usize>(
        finder: &F,
        senses: &[[i16; N]; 64],
        step: u32,
        point: &[i32; N],
    ) -> bool {
        let total = total_of(senses, step, point);
        for i in 0..N {
            for j in 0..N {
                for (first, second) in [(0, 1), (0, -1), (1, 1), (1, -1), (-1, 1), (-1, -1)] {
                    let mut near = *point;
                    near[i] = near[i].saturating_add(first);
                    near[j] = near[j].saturating_add(second);
                    if finder.contains(&near) == Ok(true) && total_of(senses, step, &near) < total {
                        return false;
                    }
                }
            }
        }
        true
    }

    // 64 senses, each second one of the other reading.
    fn senses_of<const N: usize>(reading: i16, other: i16) -> [[i16; N]; 64] {
        let mut senses = [[reading; N]; 64];
        for i in 0..32 {
            senses[2 * i] = [other; N];
        }
        senses
    }

    // The point that 64 senses decide, where its total is answered exactly.
    fn decided_exactly<F: PointFinder + Drop, const N: usize>(
        finder: F,
        step: u32,
        senses: &[[i16; N]; 64],
    ) -> Option<[i32; N]> {
        let mut block = Block::new(finder);
        let mut place = [9; N];
        block.open(step).ok()?;
        for readings in senses {
            block.sense(readings).ok()?;
        }
        let total = block.decide(&mut place).ok()?;
        (block.count() == 64 && total == total_of(senses, step, &place)).then_some(place)
    }

    // Whether 64 senses decide a point of the set, with its exact total, which no neighbour goes below.
    fn decides_the_least<F: PointTester + Copy, const N: usize>(
        finder: F,
        step: u32,
        senses: &[[i16; N]; 64],
    ) -> bool {
        let Some(point) = decided_exactly(finder, step, senses) else {
            return false;
        };
        finder.contains(&point) == Ok(true) && no_neighbour_has_less(&finder, senses, step, &point)
    }

    #[test]
    fn the_total_of_64_senses_at_the_extremes_is_exact(rt: HostRuntime) {
        let just_enough = Glue::new(LatticeZ::new(1), &[&[1022]]);
        for (reading, other) in [(-32768, -32768), (32767, 32767), (-32768, 32767)] {
            for step in [1, 3, 1000, 10923, 16384] {
                let pairs = senses_of::<2>(reading, other);
                assert!(rt; decides_the_least(LatticeZ::new(2), step, &pairs));
                let triples = senses_of::<3>(reading, other);
                assert!(rt; decides_the_least(LatticeD::new(3), step, &triples));
                let single = senses_of::<1>(reading, other);
                assert!(rt; decides_the_least(just_enough, step, &single));
                let widest = senses_of::<32>(reading, other);
                assert!(rt; decided_exactly(LatticeD::new(32), step, &widest).is_some());
            }
        }
        // two steps and three of 10923 are 21846 and 32769; the sum of three threes is odd
        let triples = senses_of::<3>(32767, 32767);
        assert_eq!(rt;
            decided_exactly(LatticeD::new(3), 10923, &triples),
            Some([2, 3, 3])
        );
        assert_eq!(rt; total_of(&triples, 10923, &[2, 3, 3]), 7633167936);
    }

    #[test]
    fn a_run_answers_as_its_calls_one_by_one(rt: HostRuntime) {
        let calls = [
            Call::Decide(2),
            Call::Sense(&[15, 4]),
            Call::Sense(&[]),
            Call::Sense(&[5, 6]),
            Call::Decide(0),
            Call::Decide(2),
            Call::Decide(3),
            Call::Decide(33),
            Call::Decide(34),
            Call::Decide(40),
            Call::Clear,
            Call::Decide(33),
            Call::Decide(2),
            Call::Sense(&[-20, 1]),
            Call::Decide(2),
        ];
        let wrong_length = Answer::Decide(Err(Refusal::Length));
        let expected = [
            Answer::Decide(Err(Refusal::Empty)),
            Answer::Sense(Ok(1)),
            Answer::Sense(Err(Refusal::Length)),
            Answer::Sense(Ok(2)),
            wrong_length,
            decided(&[1, 1], 102),
            wrong_length,
            wrong_length,
            wrong_length,
            wrong_length,
            Answer::Clear(Ok(2)),
            wrong_length,
            Answer::Decide(Err(Refusal::Empty)),
            Answer::Sense(Ok(1)),
            decided(&[-2, 0], 1),
        ];
        let mut answers = [UNWRITTEN; 15];
        let mut block = worked_pair();
        assert_eq!(rt; block.run(10, &calls, &mut answers), Ok(()));
        assert_eq!(rt; answers, expected);
        assert_eq!(rt; block.open(10), Ok(()));
        for (call, answer) in calls.iter().zip(expected) {
            assert_eq!(rt; block.make(*call), answer);
        }
        let calls = [Call::Sense(&[6; 32]), Call::Decide(32), Call::Decide(33)];
        let mut answers = [UNWRITTEN; 3];
        let mut block = Block::new(LatticeZ::new(32));
        assert_eq!(rt; block.run(10, &calls, &mut answers), Ok(()));
        assert_eq!(rt;
            answers,
            [Answer::Sense(Ok(1)), decided(&[1; 32], 512), wrong_length]
        );
    }

    #[test]
    fn a_refused_run_changes_nothing(rt: HostRuntime) {
        let calls = [Call::Clear; 2];
        let mut answers = [UNWRITTEN; 3];
        let mut block = worked_pair();
        assert_eq!(rt; block.run(10, &calls, &mut answers), Err(Refusal::Length));
        assert_eq!(rt;
            block.run(0, &calls, &mut answers[..1]),
            Err(Refusal::Length)
        );
        assert_eq!(rt; block.run(0, &calls, &mut answers[..2]), Err(Refusal::Step));
        assert_eq!(rt; block.run(16385, &[], &mut []), Err(Refusal::Depth));
        assert!(rt; holds_the_worked_pair(&block));
        let mut unfit = Block::new(LatticeZ::new(33));
        assert_eq!(rt; unfit.run(10, &calls, &mut answers), Err(Refusal::Length));
        assert_eq!(rt;
            unfit.run(10, &calls, &mut answers[..2]),
            Err(Refusal::Width)
        );
        assert!(rt; is_closed(&mut unfit));
        assert_eq!(rt; answers, [UNWRITTEN; 3]);
        assert_eq!(rt; block.run(10, &[], &mut []), Ok(()));
        assert_eq!(rt; block.count(), 0);
    }

    #[test]
    fn blocks_over_one_set_answer_alike(rt: HostRuntime) {
        let calls = [
            Call::Sense(&[10, 0, 0, 0]),
            // a tie: eight points are as near
            Call::Decide(4),
            Call::Sense(&[13, -4, 7, 1]),
            Call::Decide(4),
            Call::Clear,
            Call::Sense(&[13, -4, 7, 1]),
            Call::Sense(&[12, -3, 16, 8]),
            Call::Decide(4),
            Call::Decide(5),
        ];
        let expected = [
            Answer::Sense(Ok(1)),
            decided(&[2, 0, 0, 0], 100),
            Answer::Sense(Ok(2)),
            decided(&[1, 0, 1, 0], 135),
            Answer::Clear(Ok(2)),
            Answer::Sense(Ok(1)),
            Answer::Sense(Ok(2)),
            decided(&[1, 0, 1, 0], 148),
            Answer::Decide(Err(Refusal::Length)),
        ];
        let mut answers = [UNWRITTEN; 9];
        let mut others = answers;
        let mut one = Block::new(LatticeD::new(4));
        let mut other = Block::new(ConstructionA::new(EvenWeight::new(4)));
        assert_eq!(rt;
            crosscheck(&mut one, &mut other, 10, &calls, &mut answers, &mut others),
            Ok(())
        );
        assert_eq!(rt; answers, expected);
        // the other takes another point at the tie
        assert_eq!(rt; others[1], decided(&[0, 0, 0, 0], 100));
        others[1] = answers[1];
        assert_eq!(rt; others, answers);
        assert_eq!(rt; other.count(), 2);
    }

    #[test]
    fn two_blocks_over_one_finder_answer_the_same(rt: HostRuntime) {
        let calls = [
            Call::Sense(&[5; 8]),
            Call::Decide(8),
            Call::Sense(&[7; 8]),
            Call::Decide(8),
        ];
        let expected = [
            Answer::Sense(Ok(1)),
            decided(&[0; 8], 200),
            Answer::Sense(Ok(2)),
            decided(&[1; 8], 272),
        ];
        let mut answers = [UNWRITTEN; 4];
        let mut others = answers;
        let mut one = Block::new(e8_by_glue());
        let mut other = Block::new(e8_by_glue());
        assert_eq!(rt;
            crosscheck(&mut one, &mut other, 10, &calls, &mut answers, &mut others),
            Ok(())
        );
        assert_eq!(rt; answers, expected);
        assert_eq!(rt; others, expected);
    }

    // What a crosscheck of one clear is answered, at a step, where a block holds the worked pair and is the one or the
    // other; and whether that block, the answers and the block over the finder are left as they were.
    fn crosscheck_is_refused<F: PointFinder + Copy>(
        finder: F,
        step: u32,
        refusal: Refusal,
    ) -> bool {
        let mut pair = worked_pair();
        let mut block = Block::new(finder);
        let mut answers = [UNWRITTEN];
        let mut others = [UNWRITTEN];
        let calls = [Call::Clear];
        crosscheck(
            &mut pair,
            &mut block,
            step,
            &calls,
            &mut answers,
            &mut others,
        ) == Err(refusal)
            && crosscheck(
                &mut block,
                &mut pair,
                step,
                &calls,
                &mut others,
                &mut answers,
            ) == Err(refusal)
            && crosscheck(&mut block, &mut pair, step, &calls, &mut [], &mut answers)
                == Err(Refusal::Length)
            && crosscheck(&mut block, &mut pair, step, &calls, &mut answers, &mut [])
                == Err(Refusal::Length)
            && crosscheck(&mut block, &mut pair, step, &[], &mut [], &mut answers)
                == Err(Refusal::Length)
            && holds_the_worked_pair(&pair)
            && is_closed(&mut block)
            && answers == [UNWRITTEN]
            && others == [UNWRITTEN]
    }

    #[test]
    fn a_refused_crosscheck_changes_nothing(rt: HostRuntime) {
        assert!(rt; crosscheck_is_refused(LatticeZ::new(33), 10, Refusal::Width));
        assert!(rt; crosscheck_is_refused(LatticeZ::new(2), 0, Refusal::Step));
        assert!(rt; crosscheck_is_refused(LatticeZ::new(2), 16385, Refusal::Depth));
        // only the one over E8 does not open
        assert!(rt; crosscheck_is_refused(e8_by_glue(), 8193, Refusal::Depth));
        // the one is refused before the other
        let mut one = Block::new(LatticeZ::new(33));
        let mut other = Block::new(Scale::new(LatticeZ::new(2), 1));
        assert_eq!(rt;
            crosscheck(&mut one, &mut other, 0, &[], &mut [], &mut []),
            Err(Refusal::Width)
        );
        assert_eq!(rt;
            crosscheck(&mut other, &mut one, 0, &[], &mut [], &mut []),
            Err(Refusal::Factor)
        );
        let mut other = worked_pair();
        assert_eq!(rt;
            crosscheck(&mut other, &mut one, 16385, &[], &mut [], &mut []),
            Err(Refusal::Depth)
        );
    }
}
