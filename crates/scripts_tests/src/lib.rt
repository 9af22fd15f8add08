//! Tests of reading a script.

#![tactic(auto)]

#[cfg(test)]
mod tests {
    use scripts::fault::{LineFault, ScriptFault};
    use scripts::order::Order;
    use scripts::reading::read_script;
    use std::alloc::Global;
    use std::process::Abort;
    use std::test::Fail;

    fn fault_at_3(
        rt: &impl Abort,
        heap: Global,
        text: &str,
        expected: LineFault,
    ) -> Result<(), Fail> {
        match read_script(heap, text) {
            Err(ScriptFault::Line { line, why }) => {
                assert_eq!(rt; line, 3);
                assert_eq!(rt; why, expected);
                Ok(())
            }
            _ => Err(Fail::new("no malformed line")),
        }
    }

    #[test]
    fn faults(rt: HostRuntime) -> Result<(), Fail> {
        let cases = [
            ("# c\n\nFrame 0 1", LineFault::UnknownWord),
            ("close\n\nsection 1", LineFault::LateSection),
            ("section 1\n\nsection 1", LineFault::LateSection),
            ("# c\n\nsection 1 2", LineFault::Section),
            ("# c\n\nsection 4294967296", LineFault::Number),
            ("# c\n\nframe 0", LineFault::Frame),
            ("# c\n\nframe 0 1 flop 0 1", LineFault::Frame),
            ("# c\n\nframe 0 1 flip 0 8", LineFault::Bit),
            ("# c\n\nframe 0 -1", LineFault::Number),
            ("# c\n\nframe +1 1", LineFault::Number),
            ("# c\n\ndrop 0 1 flip 0 1", LineFault::Lost),
            ("section 1\n\nrepeat", LineFault::NothingToRepeat),
            ("# c\n\ngive", LineFault::Give),
            ("# c\n\nerase 1 2", LineFault::Erase),
            ("# c\n\nprogram 65536", LineFault::Program),
            ("# c\n\nverify 1", LineFault::Alone),
        ];
        for (text, expected) in cases {
            fault_at_3(&rt, rt.alloc(), text, expected)?;
        }
        Ok(())
    }

    #[test]
    fn repeats_the_last_frame(rt: HostRuntime) -> Result<(), Fail> {
        let text =
            "\tsection 2 # the second\r\nframe 1 2 flip 3 7\nclose\nrepeat\ndrop 4 5\nrepeat#";
        let Ok(script) = read_script(rt.alloc(), text) else {
            return Err(Fail::new("not read"));
        };
        assert_eq!(rt; script.section, 2);
        assert!(rt; script.steps.len() == 5);
        assert_eq!(rt; script.steps[4].line, 6);
        match (script.steps[2].order, script.steps[4].order) {
            (Order::Repeat(a), Order::Repeat(b)) => {
                assert_eq!(rt; a.first, 1);
                assert!(rt; a.flip.is_some());
                assert_eq!(rt; b.first, 4);
                assert_eq!(rt; b.count, 5);
                assert!(rt; b.flip.is_none());
                Ok(())
            }
            _ => Err(Fail::new("not repeated")),
        }
    }

    #[test]
    fn section_1_without_a_line(rt: HostRuntime) -> Result<(), Fail> {
        let Ok(script) = read_script(rt.alloc(), "program 65535\nerase 4294967295") else {
            return Err(Fail::new("not read"));
        };
        assert_eq!(rt; script.section, 1);
        assert!(rt; script.steps.len() == 2);
        Ok(())
    }
}
