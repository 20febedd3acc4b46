// Tests of the public calls of the codes, run on examples.
#![tactic(auto)]

#[cfg(test)]
mod tests {
    use codes::even_weight::EvenWeight;
    use codes::listed::Listed;
    use codes::reed_muller::ReedMuller;
    use codes::universe::Universe;
    use finders::refusals::Refusal;
    use finders::words::{WordFinder, WordTester};

    const LIMIT: i32 = 1073741824;

    fn has_shape<F: WordFinder>(finder: &F, width: usize, gain: u32) -> bool {
        finder.width() == width && finder.gain_limit() == gain
    }

    fn is_unfit<F: WordTester>(finder: &F, refusal: Refusal) -> bool {
        has_shape(finder, 0, 0)
            && finder.fitness() == Err(refusal)
            && finder.find(&[]) == Err(refusal)
            && finder.contains(0) == Err(refusal)
    }

    #[test]
    fn a_fit_code_tells_its_width_and_limit(rt: HostRuntime) {
        assert_eq!(rt; Universe::new(32).fitness(), Ok(()));
        assert!(rt; has_shape(&Universe::new(32), 32, 1073741824));
        assert!(rt; has_shape(&EvenWeight::new(1), 1, 1073741824));
        assert!(rt; has_shape(&ReedMuller::new(1), 2, 1073741824));
        assert!(rt; has_shape(&ReedMuller::new(5), 32, 1073741824));
        assert!(rt; has_shape(&Listed::new(32, &[4294967295]), 32, 1073741824));
        assert!(rt; has_shape(&Listed::new(3, &[0; 64]), 3, 1073741824));
    }

    #[test]
    fn an_unfit_code_answers_zero_and_its_refusal(rt: HostRuntime) {
        assert!(rt; is_unfit(&Universe::new(0), Refusal::Width));
        assert!(rt; is_unfit(&EvenWeight::new(33), Refusal::Width));
        assert!(rt; is_unfit(&ReedMuller::new(0), Refusal::Width));
        assert!(rt; is_unfit(&ReedMuller::new(6), Refusal::Width));
        assert!(rt; is_unfit(&Listed::new(0, &[]), Refusal::Width));
        assert!(rt; is_unfit(&Listed::new(33, &[0]), Refusal::Width));
        assert!(rt; is_unfit(&Listed::new(3, &[]), Refusal::WordCount));
        assert!(rt; is_unfit(&Listed::new(3, &[9; 65]), Refusal::WordCount));
        assert!(rt; is_unfit(&Listed::new(3, &[0, 8]), Refusal::Entry));
    }

    #[test]
    fn a_find_is_refused_for_length_and_then_for_size(rt: HostRuntime) {
        let even = EvenWeight::new(2);
        assert_eq!(rt; even.find(&[LIMIT + 1]), Err(Refusal::Length));
        assert_eq!(rt; even.find(&[0, LIMIT + 1]), Err(Refusal::Magnitude));
        assert_eq!(rt; even.find(&[-LIMIT - 1, 0]), Err(Refusal::Magnitude));
        assert_eq!(rt; even.find(&[-LIMIT, LIMIT]), Ok((0, 0)));
        assert_eq!(rt; ReedMuller::new(1).find(&[0, 0, 0]), Err(Refusal::Length));
        assert_eq!(rt; Listed::new(1, &[1]).find(&[-LIMIT]), Ok((1, 1073741824)));
    }

    #[test]
    fn a_digit_beyond_the_width_is_refused(rt: HostRuntime) {
        assert_eq!(rt; Universe::new(3).contains(8), Err(Refusal::Entry));
        assert_eq!(rt; Universe::new(32).contains(4294967295), Ok(true));
        assert_eq!(rt; EvenWeight::new(3).contains(9), Err(Refusal::Entry));
        assert_eq!(rt; ReedMuller::new(2).contains(16), Err(Refusal::Entry));
        assert_eq!(rt; Listed::new(3, &[5, 3]).contains(8), Err(Refusal::Entry));
    }

    #[test]
    fn ties_go_as_stated(rt: HostRuntime) {
        assert_eq!(rt; Universe::new(3).find(&[0, -1, 0]), Ok((2, 1)));
        assert_eq!(rt; EvenWeight::new(4).find(&[0, 0, -4, 1]), Ok((5, 5)));
        assert_eq!(rt; EvenWeight::new(3).find(&[-3, 3, 3]), Ok((0, 3)));
        assert_eq!(rt; ReedMuller::new(2).find(&[1, 1, 1, -1]), Ok((0, 2)));
        assert_eq!(rt; ReedMuller::new(2).find(&[-1, -1, -1, 1]), Ok((15, 2)));
        assert_eq!(rt; ReedMuller::new(1).find(&[0, 0]), Ok((0, 0)));
        assert_eq!(rt; Listed::new(2, &[3, 1, 2]).find(&[0, 0]), Ok((3, 0)));
        assert_eq!(rt; Listed::new(2, &[3, 1, 2]).find(&[-1, 1]), Ok((1, 2)));
    }

    #[test]
    fn a_code_of_32_cells_is_found_and_tested(rt: HostRuntime) {
        let mut gains = [-LIMIT; 32];
        assert_eq!(rt;
            ReedMuller::new(5).find(&gains),
            Ok((4294967295, 34359738368))
        );
        gains[31] = LIMIT;
        assert_eq!(rt;
            Universe::new(32).find(&gains),
            Ok((2147483647, 34359738368))
        );
        assert_eq!(rt;
            EvenWeight::new(32).find(&gains),
            Ok((2147483646, 32212254720))
        );
        assert_eq!(rt; ReedMuller::new(5).contains(2863311530), Ok(true));
        assert_eq!(rt; ReedMuller::new(5).contains(1431655765), Ok(true));
        assert_eq!(rt; ReedMuller::new(5).contains(1431655764), Ok(false));
    }

    // Gain times sign, added over at most 32 cells.
    fn correlation(word: u32, gains: &[i32]) -> i64 {
        let mut sum: i64 = 0;
        let mut rest = word;
        for gain in gains {
            let signed = if rest % 2 == 0 {
                i64::from(*gain)
            } else {
                -i64::from(*gain)
            };
            sum = sum.wrapping_add(signed);
            rest /= 2;
        }
        sum
    }

    // Whether what is found is a member with that correlation, and no word of eight cells that is a member has a greater one.
    fn finds_a_best<F: WordTester>(finder: &F, gains: &[i32; 8]) -> bool {
        let Ok((found, greatest)) = finder.find(gains) else {
            return false;
        };
        if finder.contains(found) != Ok(true) || correlation(found, gains) != greatest {
            return false;
        }
        for word in 0..256 {
            if finder.contains(word) == Ok(true) && correlation(word, gains) > greatest {
                return false;
            }
        }
        true
    }

    #[test]
    fn no_word_of_eight_cells_is_better(rt: HostRuntime) {
        for gains in [
            [0, 0, 0, 0, 0, 0, 0, 0],
            [5, -3, 2, -2, 1, 1, -7, 4],
            [-1, 2, -3, 4, -5, 6, -7, 8],
            [3, 3, -3, -3, -3, -3, 3, 3],
            [1, -1, -1, 1, 1, -1, -1, -9],
        ] {
            assert!(rt; finds_a_best(&Universe::new(8), &gains));
            assert!(rt; finds_a_best(&EvenWeight::new(8), &gains));
            assert!(rt; finds_a_best(&ReedMuller::new(3), &gains));
            assert!(rt; finds_a_best(&Listed::new(8, &[7, 200, 33, 0, 90]), &gains));
        }
    }
}
