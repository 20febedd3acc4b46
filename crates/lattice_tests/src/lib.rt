// Tests of the public calls of the lattices, run on examples.
#![tactic(auto)]

#[cfg(test)]
mod tests {
    use finders::choice::{FirstBest, Greatest, Least, first_best};
    use finders::points::{PointFinder, PointTester};
    use finders::refusals::Refusal;
    use lattices::lattice_d::LatticeD;
    use lattices::lattice_z::LatticeZ;
    use std::test::Fail;

    fn has_shape<F: PointFinder>(finder: &F, width: usize, reading: u32, step: u32) -> bool {
        finder.width() == width && finder.reading_limit() == reading && finder.step_limit() == step
    }

    #[test]
    fn a_fit_lattice_tells_its_width_and_limits(rt: HostRuntime) {
        assert_eq!(rt; LatticeZ::new(1).fitness(), Ok(()));
        assert_eq!(rt; LatticeD::new(32).fitness(), Ok(()));
        assert!(rt; has_shape(&LatticeZ::new(1), 1, 1073741824, 1048576));
        assert!(rt; has_shape(&LatticeD::new(32), 32, 1073741824, 1048576));
    }

    #[test]
    fn an_unfit_lattice_answers_zero_and_its_refusal(rt: HostRuntime) {
        assert_eq!(rt; LatticeZ::new(0).fitness(), Err(Refusal::Width));
        assert_eq!(rt; LatticeD::new(33).fitness(), Err(Refusal::Width));
        assert!(rt; has_shape(&LatticeZ::new(33), 0, 0, 0));
        assert!(rt; has_shape(&LatticeD::new(0), 0, 0, 0));
        assert_eq!(rt;
            LatticeD::new(0).find(&[], 10, &mut []),
            Err(Refusal::Width)
        );
        assert_eq!(rt; LatticeZ::new(33).contains(&[0; 33]), Err(Refusal::Width));
    }

    #[test]
    fn refusals_come_in_order_and_leave_the_place(rt: HostRuntime) {
        let mut place = [7, 8];
        let d = LatticeD::new(2);
        assert_eq!(rt; d.find(&[0], 0, &mut place), Err(Refusal::Length));
        assert_eq!(rt;
            d.find(&[0, 1073741825], 0, &mut place),
            Err(Refusal::Magnitude)
        );
        assert_eq!(rt;
            d.find(&[0, -1073741824], 0, &mut place),
            Err(Refusal::Step)
        );
        assert_eq!(rt;
            d.find(&[0, 1073741824], 1048577, &mut place),
            Err(Refusal::Step)
        );
        assert_eq!(rt;
            LatticeZ::new(1).find(&[0], 1, &mut place),
            Err(Refusal::Length)
        );
        assert_eq!(rt;
            LatticeZ::new(3).find(&[0, 0, 0], 1, &mut place),
            Err(Refusal::Length)
        );
        assert_eq!(rt; place, [7, 8]);
    }

    #[test]
    fn exact_levels_with_an_odd_sum_are_repaired(rt: HostRuntime) {
        let mut place = [9; 4];
        assert_eq!(rt;
            LatticeD::new(4).find(&[10, 0, 0, 0], 10, &mut place),
            Ok(100)
        );
        assert_eq!(rt; place, [2, 0, 0, 0]);
        assert_eq!(rt;
            LatticeD::new(4).find(&[10, 0, 0, 0], 10, &mut place),
            Ok(100)
        );
        assert_eq!(rt; place, [2, 0, 0, 0]);
        assert_eq!(rt;
            LatticeZ::new(4).find(&[10, 0, 0, 0], 10, &mut place),
            Ok(0)
        );
        assert_eq!(rt; place, [1, 0, 0, 0]);
    }

    #[test]
    fn members_are_told_from_the_others(rt: HostRuntime) {
        assert_eq!(rt; LatticeZ::new(2).contains(&[1, 2]), Ok(true));
        assert_eq!(rt; LatticeD::new(2).contains(&[1, 2]), Ok(false));
        assert_eq!(rt; LatticeD::new(2).contains(&[-1, 3]), Ok(true));
        assert_eq!(rt;
            LatticeD::new(2).contains(&[-1073741824, 1073741824]),
            Ok(true)
        );
        assert_eq!(rt; LatticeD::new(2).contains(&[1]), Err(Refusal::Length));
        assert_eq!(rt;
            LatticeD::new(2).contains(&[0, 1073741825]),
            Err(Refusal::Magnitude)
        );
        assert_eq!(rt;
            LatticeZ::new(1).contains(&[-1073741825]),
            Err(Refusal::Magnitude)
        );
    }

    #[test]
    fn the_first_of_the_best_is_held(rt: HostRuntime) -> Result<(), Fail> {
        let mut least = FirstBest::none();
        let mut greatest = FirstBest::none();
        for (i, score) in [0u64, 3, 0, 3].iter().enumerate() {
            least.offer(i, Least(*score));
            greatest.offer(i, Greatest(*score as i64));
        }
        let Some((first_least, Least(0))) = least.held else {
            return Err(Fail::new("the least is not held"));
        };
        let Some((first_greatest, Greatest(3))) = greatest.held else {
            return Err(Fail::new("the greatest is not held"));
        };
        assert_eq!(rt; (first_least, first_greatest), (0, 1));
        Ok(())
    }

    #[test]
    fn the_first_of_the_best_scores_is_found(rt: HostRuntime) -> Result<(), Fail> {
        let scores = [0u64, 3, 0, 3];
        let least = first_best(scores.iter().map(|&score| Least(score)));
        let greatest = first_best(scores.iter().map(|&score| Greatest(score as i64)));
        let Some((first_least, Least(0))) = least else {
            return Err(Fail::new("the least is not found"));
        };
        let Some((first_greatest, Greatest(3))) = greatest else {
            return Err(Fail::new("the greatest is not found"));
        };
        assert_eq!(rt; (first_least, first_greatest), (0, 1));
        Ok(())
    }
}
