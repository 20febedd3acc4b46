// Tests of what tasks in text have in common, run on examples.
#![tactic(auto)]

#[cfg(test)]
mod tests {
    use finders::refusals::Refusal;
    use std::str::FromStr;
    use std::test::Fail;
    use tasks::failure::Failure;
    use tasks::lines::{respond, words};
    use tasks::numbers::numbers;

    // A task that answers its first number.
    #[derive(Clone, Copy)]
    struct First;

    impl FromStr for First {
        type Err = Refusal;

        fn from_str(name: &str) -> Result<First, Refusal> {
            match name {
                "first" => Ok(First),
                _ => Err(Refusal::Kind),
            }
        }
    }

    fn answers(rt: &HostRuntime, line: &str, text: &str) -> Result<bool, Fail> {
        let heap = rt.alloc();
        let answer = respond(heap, line, |_: First, words: &[&str]| {
            match numbers::<u32>(heap, words)?.as_slice() {
                [] => Err(Failure::Refused(Refusal::Length)),
                [number, ..] => Ok(*number),
            }
        })?;
        Ok(answer.as_str() == text)
    }

    #[test]
    fn words_stand_between_white_space(rt: HostRuntime) -> Result<(), Fail> {
        let some = words(rt.alloc(), " Z\t10  -3 ")?;
        assert!(rt; some.as_slice() == ["Z", "10", "-3"].as_slice());
        assert!(rt; words(rt.alloc(), " \t ")?.is_empty());
        Ok(())
    }

    #[test]
    fn numbers_are_read_where_they_fit(rt: HostRuntime) {
        let heap = rt.alloc();
        let signed = numbers::<i32>(heap, &["+5", "-2147483648"]);
        assert!(rt; signed.is_ok_and(|numbers| numbers.as_slice() == [5, -2147483648].as_slice()));
        let unsigned = numbers::<u32>(heap, &["4294967295"]);
        assert!(rt; unsigned.is_ok_and(|numbers| numbers.as_slice() == [4294967295].as_slice()));
        let too_large = numbers::<u32>(heap, &["1", "4294967296"]);
        assert!(rt; too_large.is_err_and(|failure| failure == Failure::Unreadable));
    }

    #[test]
    fn a_line_is_answered_or_told_why_not(rt: HostRuntime) -> Result<(), Fail> {
        assert!(rt; answers(&rt, "first 7 8", "7")?);
        assert!(rt; answers(&rt, "first", "refused 2")?);
        assert!(rt; answers(&rt, "first 7 x", "unreadable")?);
        assert!(rt; answers(&rt, "last 7", "refused 14")?);
        assert!(rt; answers(&rt, "", "refused 14")?);
        Ok(())
    }
}
