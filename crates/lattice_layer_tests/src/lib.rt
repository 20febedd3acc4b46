// Tests of the public calls of the layers of points, alone and in piles, run on examples.
#![tactic(auto)]

#[cfg(test)]
mod tests {
    use codes::even_weight::EvenWeight;
    use codes::listed::Listed;
    use codes::reed_muller::ReedMuller;
    use codes::universe::Universe;
    use finders::points::{PointFinder, PointTester};
    use finders::refusals::Refusal;
    use lattice_layers::construction_a::ConstructionA;
    use lattice_layers::e8::{e8_by_glue, e8_by_words};
    use lattice_layers::glue::Glue;
    use lattice_layers::join::Join;
    use lattice_layers::scale::Scale;
    use lattices::lattice_d::LatticeD;
    use lattices::lattice_z::LatticeZ;

    const LIMIT: i32 = 1073741824;

    fn has_shape<F: PointFinder>(finder: &F, width: usize, reading: u32, step: u32) -> bool {
        finder.width() == width && finder.reading_limit() == reading && finder.step_limit() == step
    }

    fn is_unfit<F: PointTester>(finder: &F, refusal: Refusal) -> bool {
        let mut place = [7];
        has_shape(finder, 0, 0, 0)
            && finder.fitness() == Err(refusal)
            && finder.find(&[0], 1, &mut place) == Err(refusal)
            && finder.contains(&[0]) == Err(refusal)
            && place == [7]
    }

    // Whether a find writes this point and answers this distance.
    fn finds<F: PointFinder, const N: usize>(
        finder: &F,
        step: u32,
        readings: [i32; N],
        point: [i32; N],
        distance: u64,
    ) -> bool {
        let mut place = [9; N];
        finder.find(&readings, step, &mut place) == Ok(distance) && place == point
    }

    // Whether a find is refused by this number and leaves the place.
    fn refuses<F: PointFinder, const N: usize>(
        finder: &F,
        step: u32,
        readings: [i32; N],
        refusal: Refusal,
    ) -> bool {
        let mut place = [9; N];
        finder.find(&readings, step, &mut place) == Err(refusal) && place == [9; N]
    }

    #[test]
    fn a_layer_tells_its_width_and_limits(rt: HostRuntime) {
        let words = ConstructionA::new(EvenWeight::new(5));
        assert!(rt; has_shape(&words, 5, 1073741824, 1048576));
        let scale = Scale::new(LatticeD::new(2), 3);
        assert!(rt; has_shape(&scale, 2, 1073741824, 349525));
        let twice = Scale::new(Scale::new(LatticeZ::new(1), 1024), 1024);
        assert!(rt; has_shape(&twice, 1, 1073741824, 1));
        let glue = Glue::new(LatticeZ::new(2), &[&[1023, -1023]]);
        assert!(rt; has_shape(&glue, 2, 1048576, 1048576));
        let rows: [&[i32]; 13] = [&[1, 0]; 13];
        assert!(rt; has_shape(&Glue::new(LatticeZ::new(2), &rows), 2, 1060110336, 1048576));
        let join = Join::new(glue, scale);
        assert!(rt; has_shape(&join, 4, 1048576, 349525));
        let widest = Join::new(LatticeZ::new(31), LatticeD::new(1));
        assert!(rt; has_shape(&widest, 32, 1073741824, 1048576));
        assert_eq!(rt; Glue::new(LatticeD::new(1), &[]).fitness(), Ok(()));
    }

    #[test]
    fn a_layer_is_unfit_in_the_stated_order(rt: HostRuntime) {
        let no_word = ConstructionA::new(Listed::new(1, &[]));
        assert!(rt; is_unfit(&no_word, Refusal::WordCount));
        assert!(rt; is_unfit(&Scale::new(LatticeD::new(0), 1), Refusal::Width));
        assert!(rt; is_unfit(&Scale::new(LatticeD::new(1), 1), Refusal::Factor));
        assert!(rt; is_unfit(&Scale::new(LatticeD::new(1), 1025), Refusal::Factor));
        let low = Scale::new(Scale::new(LatticeD::new(1), 1024), 1024);
        assert!(rt; is_unfit(&Scale::new(low, 1), Refusal::Factor));
        assert!(rt; is_unfit(&Scale::new(low, 2), Refusal::Exhausted));
        assert!(rt; is_unfit(&Join::new(no_word, LatticeD::new(0)), Refusal::WordCount));
        assert!(rt; is_unfit(&Join::new(LatticeD::new(2), no_word), Refusal::WordCount));
        assert!(rt;
            is_unfit(
                &Join::new(LatticeD::new(17), LatticeZ::new(16)),
                Refusal::Width
            )
        );
    }

    #[test]
    fn a_glue_is_unfit_in_the_stated_order(rt: HostRuntime) {
        let z = LatticeZ::new(2);
        let many: [&[i32]; 14] = [&[1025]; 14];
        assert!(rt; is_unfit(&Glue::new(LatticeZ::new(33), &many), Refusal::Width));
        assert!(rt; is_unfit(&Glue::new(z, &many), Refusal::GlueCount));
        assert!(rt; is_unfit(&Glue::new(z, &[&[1025, 0], &[0]]), Refusal::Length));
        assert!(rt; is_unfit(&Glue::new(z, &[&[1025; 3]]), Refusal::Length));
        assert!(rt; is_unfit(&Glue::new(z, &[&[0; 33]]), Refusal::Length));
        assert!(rt; is_unfit(&Glue::new(z, &[&[]]), Refusal::Length));
        assert!(rt; is_unfit(&Glue::new(z, &[&[0, -1025]]), Refusal::Entry));
        assert!(rt; is_unfit(&Glue::new(z, &[&[0, -1024]]), Refusal::Exhausted));
        let rows: [&[i32]; 13] = [&[1024, 1024]; 13];
        assert!(rt; is_unfit(&Glue::new(z, &rows), Refusal::Exhausted));
        assert_eq!(rt; Glue::new(z, &[&[1023, 1]]).fitness(), Ok(()));
        assert!(rt; is_unfit(&Glue::new(z, &[&[1023, 1], &[0, 1]]), Refusal::Exhausted));
        let fine = Scale::new(z, 2);
        assert_eq!(rt; Glue::new(fine, &[&[1024, -1024]]).fitness(), Ok(()));
    }

    #[test]
    fn a_layer_refuses_by_its_own_shape(rt: HostRuntime) {
        let scale = Scale::new(LatticeZ::new(2), 3);
        assert!(rt; refuses(&scale, 0, [LIMIT], Refusal::Length));
        assert!(rt; refuses(&scale, 0, [LIMIT + 1, 0], Refusal::Magnitude));
        assert!(rt; refuses(&scale, 349526, [0, 0], Refusal::Step));
        assert!(rt; refuses(&scale, 0, [0, 0], Refusal::Step));
        let glue = Glue::new(LatticeZ::new(2), &[&[1, 1023]]);
        assert!(rt; refuses(&glue, 0, [0, -1048577], Refusal::Magnitude));
        assert!(rt; refuses(&glue, 1048577, [0, -1048576], Refusal::Step));
        let join = Join::new(glue, scale);
        assert!(rt; refuses(&join, 0, [0, 0, 0, 1048577], Refusal::Magnitude));
        assert!(rt; refuses(&join, 349526, [0, 0, 0, 1048576], Refusal::Step));
        assert!(rt; refuses(&join, 1, [0, 0, 0], Refusal::Length));
        let words = ConstructionA::new(EvenWeight::new(2));
        assert!(rt; refuses(&words, 1048577, [0, LIMIT], Refusal::Step));
        assert!(rt; refuses(&words, 1048577, [0, LIMIT + 1], Refusal::Magnitude));
        let mut place = [9; 3];
        assert_eq!(rt; words.find(&[0, 0], 1, &mut place), Err(Refusal::Length));
        assert_eq!(rt; glue.find(&[0, 0], 1, &mut place), Err(Refusal::Length));
        assert_eq!(rt; place, [9; 3]);
    }

    #[test]
    fn each_layer_finds_what_its_method_gives(rt: HostRuntime) {
        let even = ConstructionA::new(EvenWeight::new(4));
        assert!(rt; finds(&even, 10, [10, 0, 0, 0], [0, 0, 0, 0], 100));
        assert!(rt;
            finds(
                &ConstructionA::new(Universe::new(3)),
                10,
                [0, 15, -25],
                [0, 2, -2],
                50
            )
        );
        let odd = ConstructionA::new(Listed::new(2, &[3]));
        assert!(rt; finds(&odd, 10, [0, 0], [1, 1], 200));
        assert!(rt; finds(&odd, 10, [40, -40], [3, -3], 200));
        assert!(rt; finds(&odd, 10, [-1, 41], [-1, 5], 162));
        assert!(rt;
            finds(
                &Scale::new(LatticeZ::new(2), 3),
                10,
                [44, -46],
                [3, -6],
                392
            )
        );
        assert!(rt;
            finds(
                &Join::new(LatticeD::new(2), LatticeZ::new(1)),
                10,
                [10, 0, 15],
                [2, 0, 1],
                125
            )
        );
        let glue = Glue::new(LatticeD::new(2), &[&[1, 0]]);
        assert!(rt; finds(&glue, 10, [10, 0], [1, 0], 0));
        assert!(rt; finds(&Glue::new(LatticeD::new(2), &[]), 10, [10, 0], [2, 0], 100));
    }

    #[test]
    fn the_lowest_of_equal_sums_is_taken(rt: HostRuntime) {
        let even = Scale::new(LatticeZ::new(1), 2);
        assert!(rt; finds(&Glue::new(even, &[&[1]]), 10, [5], [0], 25));
        assert!(rt; finds(&Glue::new(even, &[&[-1]]), 10, [-5], [0], 25));
        let pairs = Scale::new(LatticeZ::new(2), 2);
        assert!(rt;
            finds(
                &Glue::new(pairs, &[&[1, 1], &[1, -1]]),
                10,
                [10, 0],
                [0, 0],
                100
            )
        );
    }

    #[test]
    fn members_are_told_from_others(rt: HostRuntime) {
        let words = ConstructionA::new(Listed::new(3, &[5, 2]));
        assert_eq!(rt; words.contains(&[-1, 4, 7]), Ok(true));
        assert_eq!(rt; words.contains(&[0, -3, 2]), Ok(true));
        assert_eq!(rt; words.contains(&[1, 1, 1]), Ok(false));
        assert_eq!(rt; words.contains(&[1, 0, LIMIT + 1]), Err(Refusal::Magnitude));
        let scale = Scale::new(LatticeD::new(2), 3);
        assert_eq!(rt; scale.contains(&[-3, 9]), Ok(true));
        assert_eq!(rt; scale.contains(&[3, 6]), Ok(false));
        assert_eq!(rt; scale.contains(&[3, 5]), Ok(false));
        assert_eq!(rt; scale.contains(&[1, -1]), Ok(false));
        assert_eq!(rt; scale.contains(&[3]), Err(Refusal::Length));
        let join = Join::new(LatticeD::new(2), scale);
        assert_eq!(rt; join.contains(&[1, 1, 3, 3]), Ok(true));
        assert_eq!(rt; join.contains(&[1, 0, 3, 3]), Ok(false));
        assert_eq!(rt; join.contains(&[1, 1, 3, 1]), Ok(false));
        let glue = Glue::new(scale, &[&[1, 1], &[0, 3]]);
        assert_eq!(rt; glue.contains(&[3, 6]), Ok(true));
        assert_eq!(rt; glue.contains(&[1, 4]), Ok(true));
        assert_eq!(rt; glue.contains(&[2, 2]), Ok(false));
        assert_eq!(rt; glue.contains(&[1, 1070596096]), Ok(true));
        assert_eq!(rt; glue.contains(&[1, LIMIT]), Err(Refusal::Magnitude));
    }

    #[test]
    fn both_forms_of_e8(rt: HostRuntime) {
        let glue = e8_by_glue();
        let words = e8_by_words();
        assert!(rt; has_shape(&glue, 8, 1073217536, 524288));
        assert!(rt; has_shape(&words, 8, 1073741824, 1048576));
        assert!(rt; finds(&glue, 10, [5; 8], [0; 8], 200));
        assert!(rt; finds(&glue, 10, [10; 8], [1; 8], 0));
        assert!(rt; finds(&words, 10, [5; 8], [0; 8], 200));
        assert!(rt; finds(&words, 10, [10; 8], [1; 8], 0));
        assert_eq!(rt; glue.contains(&[1; 8]), Ok(true));
        assert_eq!(rt; glue.contains(&[3, 1, 1, 1, 1, 1, 1, -1]), Ok(true));
        assert_eq!(rt; glue.contains(&[2, 0, 0, 0, 0, 0, 0, 0]), Ok(false));
        assert_eq!(rt; words.contains(&[2, 0, 0, 0, 0, 0, 0, 0]), Ok(true));
        assert_eq!(rt; words.contains(&[1, 1, 1, 1, 0, 0, 0, 0]), Ok(true));
        assert_eq!(rt; words.contains(&[1, 1, 1, 0, 0, 0, 0, 0]), Ok(false));
        assert_eq!(rt; glue.find(&[0; 7], 10, &mut [0; 7]), Err(Refusal::Length));
    }

    #[test]
    fn both_ways_to_d_find_at_one_distance(rt: HostRuntime) {
        let words = ConstructionA::new(EvenWeight::new(4));
        let d = LatticeD::new(4);
        for readings in [[10, 0, 0, 0], [15, -15, 5, 16], [-13, 27, 41, 8], [5; 4]] {
            let mut one = [0; 4];
            let mut other = [0; 4];
            assert_eq!(rt;
                words.find(&readings, 10, &mut one),
                d.find(&readings, 10, &mut other)
            );
            assert_eq!(rt; words.contains(&other), Ok(true));
            assert_eq!(rt; d.contains(&one), Ok(true));
        }
    }

    #[test]
    fn glue_over_a_join_of_a_scaled_lattice_and_a_construction(rt: HostRuntime) {
        let pile = Glue::new(
            Join::new(
                Scale::new(LatticeZ::new(2), 3),
                ConstructionA::new(EvenWeight::new(2)),
            ),
            &[&[1, 2, 0, -1], &[0, 1, 1, 0]],
        );
        assert!(rt; has_shape(&pile, 4, 1072693249, 349525));
        assert!(rt; finds(&pile, 10, [7, -13, 24, 5], [1, -1, 2, 1], 59));
        assert!(rt; finds(&pile, 10, [15, -5, 25, 35], [1, -1, 2, 3], 100));
        assert_eq!(rt; pile.contains(&[1, -1, 2, 3]), Ok(true));
        assert_eq!(rt; pile.contains(&[0, 0, 0, 1]), Ok(false));
    }

    #[test]
    fn scaled_glue_of_two_rows(rt: HostRuntime) {
        let pile = Scale::new(Glue::new(LatticeD::new(3), &[&[1, 1, 1], &[1, 0, 0]]), 2);
        assert!(rt; has_shape(&pile, 3, 1071644672, 524288));
        assert!(rt; finds(&pile, 5, [7, -13, 24], [2, -2, 4], 34));
        assert!(rt; finds(&pile, 5, [5, 5, 5], [0, 0, 0], 75));
    }

    #[test]
    fn join_of_a_scaled_join_and_a_glue(rt: HostRuntime) {
        let pile = Join::new(
            Scale::new(Join::new(LatticeD::new(1), LatticeZ::new(1)), 4),
            Glue::new(Scale::new(LatticeZ::new(2), 2), &[&[1, 1]]),
        );
        assert!(rt; has_shape(&pile, 4, 1073217536, 262144));
        assert!(rt; finds(&pile, 10, [17, -23, 9, -11], [0, -4, 1, -1], 580));
        assert!(rt; finds(&pile, 10, [20, 20, 10, -10], [0, 0, 1, -1], 800));
    }

    #[test]
    fn glue_over_a_scaled_glue(rt: HostRuntime) {
        let inner = Glue::new(Scale::new(LatticeD::new(4), 2), &[&[1; 4]]);
        let rows: [&[i32]; 3] = [&[1, 1, 0, 0], &[0, 1, 1, 0], &[1, -1, 1, 1]];
        let pile = Glue::new(Scale::new(inner, 2), &rows);
        assert!(rt; has_shape(&pile, 4, 1072431104, 262144));
        assert!(rt; finds(&pile, 3, [4, -5, 7, 2], [1, -1, 1, 1], 22));
        assert!(rt; finds(&pile, 3, [0, 3, 0, 0], [0, 0, 0, 0], 9));
    }

    #[test]
    fn words_of_reed_muller_as_points(rt: HostRuntime) {
        let words = ConstructionA::new(ReedMuller::new(2));
        assert!(rt; finds(&words, 10, [10, 10, 10, 10], [1, 1, 1, 1], 0));
        assert!(rt; finds(&words, 10, [10, 9, -9, -10], [1, 1, -1, -1], 2));
    }
}
