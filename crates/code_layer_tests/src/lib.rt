// Tests of the public calls of the layers of words, alone and in piles, run on examples.
#![tactic(auto)]

#[cfg(test)]
mod tests {
    use code_layers::glue::Glue;
    use code_layers::join::Join;
    use code_layers::repeat::Repeat;
    use code_layers::shorten::Shorten;
    use codes::even_weight::EvenWeight;
    use codes::listed::Listed;
    use codes::reed_muller::ReedMuller;
    use codes::universe::Universe;
    use finders::refusals::Refusal;
    use finders::words::{WordFinder, WordTester};

    const LIMIT: i32 = 1073741824;

    fn has_shape<F: WordFinder>(finder: &F, width: usize, gain: u32) -> bool {
        finder.width() == width && finder.gain_limit() == gain
    }

    fn is_unfit<F: WordTester>(finder: &F, refusal: Refusal) -> bool {
        has_shape(finder, 0, 0)
            && finder.fitness() == Err(refusal)
            && finder.find(&[]) == Err(refusal)
            && finder.contains(0) == Err(refusal)
    }

    #[test]
    fn a_layer_tells_its_width_and_limit(rt: HostRuntime) {
        assert!(rt; has_shape(&Repeat::new(EvenWeight::new(2), 3), 6, 357913941));
        assert!(rt; has_shape(&Repeat::new(Universe::new(1), 32), 32, 33554432));
        assert!(rt;
            has_shape(
                &Join::new(Universe::new(2), Repeat::new(EvenWeight::new(2), 2)),
                6,
                536870912
            )
        );
        assert!(rt;
            has_shape(
                &Join::new(Universe::new(31), EvenWeight::new(1)),
                32,
                1073741824
            )
        );
        assert!(rt;
            has_shape(
                &Glue::new(EvenWeight::new(32), &[4294967295; 7]),
                32,
                1073741824
            )
        );
        assert!(rt; has_shape(&Shorten::new(EvenWeight::new(2)), 1, 1073741824));
        assert_eq!(rt; Glue::new(EvenWeight::new(1), &[]).fitness(), Ok(()));
    }

    #[test]
    fn a_layer_is_unfit_in_the_stated_order(rt: HostRuntime) {
        assert!(rt; is_unfit(&Repeat::new(EvenWeight::new(0), 1), Refusal::Width));
        assert!(rt; is_unfit(&Repeat::new(EvenWeight::new(32), 1), Refusal::Factor));
        assert!(rt; is_unfit(&Repeat::new(EvenWeight::new(32), 33), Refusal::Factor));
        assert!(rt; is_unfit(&Repeat::new(EvenWeight::new(17), 2), Refusal::Width));
        assert!(rt;
            is_unfit(
                &Join::new(Listed::new(1, &[]), EvenWeight::new(0)),
                Refusal::WordCount
            )
        );
        assert!(rt;
            is_unfit(
                &Join::new(EvenWeight::new(2), Listed::new(1, &[2])),
                Refusal::Entry
            )
        );
        assert!(rt;
            is_unfit(
                &Join::new(EvenWeight::new(17), Universe::new(16)),
                Refusal::Width
            )
        );
        assert!(rt; is_unfit(&Glue::new(EvenWeight::new(33), &[0; 8]), Refusal::Width));
        assert!(rt; is_unfit(&Glue::new(EvenWeight::new(3), &[8; 8]), Refusal::GlueCount));
        assert!(rt; is_unfit(&Glue::new(EvenWeight::new(3), &[7, 8]), Refusal::Entry));
        assert!(rt; is_unfit(&Shorten::new(ReedMuller::new(6)), Refusal::Width));
        assert!(rt; is_unfit(&Shorten::new(Universe::new(1)), Refusal::Width));
        assert!(rt;
            is_unfit(
                &Shorten::new(Repeat::new(Universe::new(1), 40)),
                Refusal::Factor
            )
        );
    }

    // As many cells as below, where that has two, and half the gain limit.
    type Halved<F> = Repeat<Shorten<F>>;

    type HalvedFiveTimes<F> = Halved<Halved<Halved<Halved<Halved<F>>>>>;

    fn halved<F: WordFinder>(below: F) -> Halved<F> {
        Repeat::new(Shorten::new(below), 2)
    }

    fn halved_five_times<F: WordFinder>(below: F) -> HalvedFiveTimes<F> {
        halved(halved(halved(halved(halved(below)))))
    }

    #[test]
    fn a_limit_is_used_up(rt: HostRuntime) {
        let some = halved_five_times(halved_five_times(halved_five_times(EvenWeight::new(2))));
        let low = halved_five_times(halved_five_times(halved_five_times(some)));
        assert!(rt; has_shape(&low, 2, 1));
        assert_eq!(rt; halved(low).fitness(), Err(Refusal::Exhausted));
    }

    #[test]
    fn a_layer_refuses_by_its_own_shape(rt: HostRuntime) {
        let repeat = Repeat::new(EvenWeight::new(2), 2);
        assert_eq!(rt; repeat.find(&[0, 0]), Err(Refusal::Length));
        assert_eq!(rt; repeat.find(&[0, 0, 0, 536870913]), Err(Refusal::Magnitude));
        assert_eq!(rt; repeat.find(&[-536870912; 4]), Ok((15, 2147483648)));
        assert_eq!(rt; repeat.contains(16), Err(Refusal::Entry));
        let join = Join::new(Universe::new(1), repeat);
        assert_eq!(rt;
            join.find(&[536870913, 0, 0, 0, 0]),
            Err(Refusal::Magnitude)
        );
        assert_eq!(rt; join.contains(32), Err(Refusal::Entry));
        let glue = Glue::new(EvenWeight::new(2), &[1]);
        assert_eq!(rt; glue.find(&[LIMIT + 1]), Err(Refusal::Length));
        assert_eq!(rt; glue.find(&[0, LIMIT + 1]), Err(Refusal::Magnitude));
        assert_eq!(rt; glue.contains(4), Err(Refusal::Entry));
        let shorten = Shorten::new(EvenWeight::new(3));
        assert_eq!(rt; shorten.find(&[0, 0, 0]), Err(Refusal::Length));
        assert_eq!(rt; shorten.contains(4), Err(Refusal::Entry));
    }

    #[test]
    fn each_layer_finds_what_its_method_gives(rt: HostRuntime) {
        assert_eq!(rt;
            Repeat::new(EvenWeight::new(2), 2).find(&[1, -3, 2, -1]),
            Ok((15, 1))
        );
        assert_eq!(rt;
            Repeat::new(EvenWeight::new(2), 3).find(&[-1, -1, 1, 2, -1, -1]),
            Ok((63, 1))
        );
        assert_eq!(rt;
            Repeat::new(Universe::new(1), 32).find(&[-33554432; 32]),
            Ok((4294967295, 1073741824))
        );
        assert_eq!(rt;
            Join::new(Universe::new(2), EvenWeight::new(2)).find(&[-1, 2, -3, 1]),
            Ok((13, 5))
        );
        assert_eq!(rt;
            Join::new(ReedMuller::new(1), Listed::new(3, &[5, 2])).find(&[1, -1, 2, 2, -1]),
            Ok((22, 3))
        );
        assert_eq!(rt;
            Glue::new(EvenWeight::new(2), &[1]).find(&[-3, 2]),
            Ok((1, 5))
        );
        assert_eq!(rt;
            Glue::new(EvenWeight::new(2), &[]).find(&[-3, 2]),
            Ok((3, 1))
        );
        assert_eq!(rt;
            Glue::new(Listed::new(2, &[3]), &[1, 2]).find(&[1, -1]),
            Ok((2, 2))
        );
        assert_eq!(rt; Shorten::new(EvenWeight::new(3)).find(&[-3, 2]), Ok((1, 5)));
        assert_eq!(rt;
            Shorten::new(ReedMuller::new(2)).find(&[1, 1, -2]),
            Ok((4, 4))
        );
    }

    #[test]
    fn the_lowest_of_equal_sums_is_taken(rt: HostRuntime) {
        assert_eq!(rt;
            Glue::new(EvenWeight::new(2), &[1]).find(&[0, 0]),
            Ok((0, 0))
        );
        assert_eq!(rt;
            Glue::new(EvenWeight::new(2), &[1]).find(&[0, -1]),
            Ok((3, 1))
        );
        assert_eq!(rt;
            Glue::new(Listed::new(2, &[1]), &[3, 1]).find(&[2, 2]),
            Ok((0, 4))
        );
        assert_eq!(rt;
            Glue::new(Listed::new(2, &[0]), &[1, 2]).find(&[0, 0]),
            Ok((0, 0))
        );
        assert_eq!(rt;
            Glue::new(Listed::new(2, &[0]), &[1, 2]).find(&[0, -1]),
            Ok((2, 1))
        );
        assert_eq!(rt;
            Glue::new(Listed::new(2, &[0]), &[3, 2]).find(&[0, -1]),
            Ok((3, 1))
        );
    }

    #[test]
    fn members_are_told_from_others(rt: HostRuntime) {
        let repeat = Repeat::new(EvenWeight::new(3), 2);
        assert_eq!(rt; repeat.contains(15), Ok(true));
        assert_eq!(rt; repeat.contains(3), Ok(false));
        assert_eq!(rt; repeat.contains(5), Ok(false));
        assert_eq!(rt; repeat.contains(13), Ok(false));
        let join = Join::new(EvenWeight::new(2), Listed::new(2, &[1]));
        assert_eq!(rt; join.contains(7), Ok(true));
        assert_eq!(rt; join.contains(5), Ok(false));
        assert_eq!(rt; join.contains(3), Ok(false));
        let glue = Glue::new(Listed::new(3, &[0, 7]), &[1, 2]);
        assert_eq!(rt; glue.contains(3), Ok(true));
        assert_eq!(rt; glue.contains(4), Ok(true));
        assert_eq!(rt; Glue::new(EvenWeight::new(3), &[3]).contains(1), Ok(false));
        let shorten = Shorten::new(Listed::new(3, &[1, 6]));
        assert_eq!(rt; shorten.contains(1), Ok(true));
        assert_eq!(rt; shorten.contains(2), Ok(true));
        assert_eq!(rt; shorten.contains(3), Ok(false));
    }

    #[test]
    fn glue_over_a_join_of_a_repeated_and_a_shortened_code(rt: HostRuntime) {
        let pile = Glue::new(
            Join::new(
                Repeat::new(EvenWeight::new(2), 2),
                Shorten::new(ReedMuller::new(3)),
            ),
            &[1, 1025],
        );
        assert!(rt; has_shape(&pile, 11, 536870912));
        assert_eq!(rt;
            pile.find(&[3, -1, -2, -5, 1, -1, 4, -2, 0, 7, -3]),
            Ok((1454, 29))
        );
        assert_eq!(rt; pile.find(&[0; 11]), Ok((0, 0)));
        assert_eq!(rt; pile.contains(1), Ok(true));
        assert_eq!(rt; pile.contains(15), Ok(true));
        assert_eq!(rt; pile.contains(3), Ok(false));
        assert_eq!(rt; pile.contains(1025), Ok(true));
        assert_eq!(rt; pile.contains(2048), Err(Refusal::Entry));
    }

    #[test]
    fn shortened_join_of_a_glued_and_a_repeated_code(rt: HostRuntime) {
        let pile = Shorten::new(Join::new(
            Glue::new(EvenWeight::new(3), &[7]),
            Repeat::new(Listed::new(2, &[0, 3, 1]), 2),
        ));
        assert!(rt; has_shape(&pile, 6, 536870912));
        assert_eq!(rt; pile.find(&[-4, 2, -1, -3, 1, 6]), Ok((29, 15)));
        assert_eq!(rt; pile.contains(24), Ok(true));
        assert_eq!(rt; pile.contains(63), Ok(true));
        assert_eq!(rt; pile.contains(8), Ok(false));
    }

    #[test]
    fn repeated_join_of_all_words_and_a_shortened_code(rt: HostRuntime) {
        let pile = Repeat::new(
            Join::new(Universe::new(1), Shorten::new(EvenWeight::new(3))),
            4,
        );
        assert!(rt; has_shape(&pile, 12, 268435456));
        assert_eq!(rt;
            pile.find(&[1, -2, 3, -4, -1, -1, 1, -1, 5, -5, 2, -1]),
            Ok((255, 5))
        );
        assert_eq!(rt; pile.find(&[268435456; 12]), Ok((0, 3221225472)));
        assert_eq!(rt; pile.find(&[268435457; 12]), Err(Refusal::Magnitude));
        assert_eq!(rt; pile.contains(3840), Ok(true));
        assert_eq!(rt; pile.contains(16), Ok(false));
    }

    #[test]
    fn join_of_a_code_shortened_twice_and_a_glued_repeated_code(rt: HostRuntime) {
        let pile = Join::new(
            Shorten::new(Shorten::new(ReedMuller::new(2))),
            Glue::new(Repeat::new(Universe::new(1), 3), &[3, 5]),
        );
        assert!(rt; has_shape(&pile, 5, 357913941));
        assert_eq!(rt; pile.find(&[-1, 0, 2, -3, 1]), Ok((11, 7)));
        assert_eq!(rt; pile.contains(31), Ok(true));
    }

    #[test]
    fn glue_over_a_repeated_glued_code(rt: HostRuntime) {
        let pile = Glue::new(Repeat::new(Glue::new(EvenWeight::new(2), &[1]), 3), &[9, 1]);
        assert!(rt; has_shape(&pile, 6, 357913941));
        assert_eq!(rt; pile.find(&[1, -2, 1, -1, 2, -2]), Ok((14, 3)));
        assert_eq!(rt; pile.contains(57), Ok(true));
        assert_eq!(rt; pile.contains(2), Ok(false));
    }
}
