//! Grammars that are too large for a file of this repository: limits, and what large ones take.
#![tactic(auto)]

#[cfg(test)]
mod tests {
    use rowan::Fault;
    use rowan_grammar::{Written, check, generate};
    use std::alloc::{AllocError, Global};
    use std::test::Fail;

    const HEAD: &str = "language Lang\ncrate lang\nroot Root\nerror Error\n";

    /// The head of a grammar, and so many times what a rule of this number has.
    fn repeated(
        alloc: Global,
        before: &str,
        count: usize,
        after: &str,
    ) -> Result<String, AllocError> {
        let mut text = String::from_str(alloc, HEAD)?;
        for number in 0..count {
            writeln!(text, "{before}{number}{after}")?;
        }
        Ok(text)
    }

    fn checked(alloc: Global, text: &str) -> Result<Written, Fault> {
        check(alloc, text, "made.ungram")
    }

    /// The tokens of a grammar with one node.
    fn tokens(alloc: Global, count: usize) -> Result<Written, Fault> {
        let mut text = repeated(alloc, "token T", count, "")?;
        text.push_str("Root = T0\n")?;
        checked(alloc, text.as_str())
    }

    #[test]
    fn token_sets_take_128_tokens(rt: HostRuntime) -> Result<(), Fail> {
        assert!(rt; tokens(rt.alloc(), 128)?.messages.is_empty());
        let made = tokens(rt.alloc(), 129)?;
        assert!(rt; !made.has_errors);
        assert!(rt;
            made.messages
                .contains("warning: a `TokenSet` takes the first 128 tokens")
        );
        Ok(())
    }

    #[test]
    fn kinds_have_16_bits(rt: HostRuntime) -> Result<(), Fail> {
        let made = tokens(rt.alloc(), 65534)?;
        assert!(rt; !made.has_errors);
        assert!(rt; made.summary.kinds == 65536);
        Ok(())
    }

    #[test]
    fn one_kind_more_is_told(rt: HostRuntime) -> Result<(), Fail> {
        let made = tokens(rt.alloc(), 65535)?;
        assert!(rt; made.has_errors);
        assert!(rt;
            made.messages
                .contains("a language has at most 65536 kinds, and this one 65537")
        );
        Ok(())
    }

    #[test]
    fn errors_are_counted(rt: HostRuntime) -> Result<(), Fail> {
        let text = repeated(rt.alloc(), "N", 20000, " = Unknown Missing")?;
        let made = checked(rt.alloc(), text.as_str())?;
        assert!(rt; made.has_errors);
        assert!(rt; made.messages.len() < 10000);
        assert!(rt; made.messages.ends_with("\n39981 more errors\n"));
        Ok(())
    }

    /// A choice in a choice, and so on.
    fn nested(alloc: Global, count: usize) -> Result<String, AllocError> {
        let mut text = String::from_str(alloc, HEAD)?;
        text.push_str("Root = C0\n")?;
        for number in 0..count {
            let next = number.saturating_add(1);
            write!(text, "N{number} = Root?\nC{number} = N{number} | C{next}\n")?;
        }
        writeln!(text, "C{count} = Root | Error2\nError2 = Root?")?;
        Ok(text)
    }

    #[test]
    fn choices_are_nested(rt: HostRuntime) -> Result<(), Fail> {
        let text = nested(rt.alloc(), 400)?;
        let made = checked(rt.alloc(), text.as_str())?;
        assert!(rt; made.messages.is_empty());
        assert!(rt; made.summary.wrappers == 803);
        Ok(())
    }

    #[test]
    fn choices_are_nested_too_deep(rt: HostRuntime) -> Result<(), Fail> {
        let text = nested(rt.alloc(), 2000)?;
        let made = checked(rt.alloc(), text.as_str())?;
        assert!(rt; made.has_errors);
        assert!(rt; made.messages.contains("lead to too many nodes"));
        Ok(())
    }

    #[test]
    fn files_are_marked(rt: HostRuntime) -> Result<(), Fail> {
        let text = nested(rt.alloc(), 3)?;
        let made = generate(rt.alloc(), text.as_str(), "folder/made.ungram")?;
        assert!(rt; made.files.len() == 8);
        for file in made.files.iter() {
            assert!(rt; file.mark.contains("from made.ungram:"));
            if let Some(text) = &file.text {
                assert!(rt; text.starts_with(file.mark.as_str()));
            }
        }
        Ok(())
    }

    /// The files that a grammar with these lines gives.
    fn files_of(alloc: Global, lines: &str) -> Result<String, Fault> {
        let text = format!(in alloc; "{HEAD}{lines}")?;
        let made = generate(alloc, text.as_str(), "made.ungram")?;
        let mut names = String::new(alloc);
        for file in made.files.iter() {
            if file.text.is_some() {
                writeln!(names, "{}", file.path)?;
            }
        }
        Ok(names)
    }

    /// Lines of a grammar, and the files that it gives.
    const GIVEN: [(&str, &str); 4] = [
        (
            "Root = Root?",
            "src/kinds.rt\nsrc/nodes.rt\nspecs/Kinds.antt\nspecs/Casts.antt\nspecs/NodeIn.antt\n",
        ),
        (
            "kinds syntax\nwrappers none\nRoot = Root?",
            "src/syntax.rt\nspecs/Kinds.antt\n",
        ),
        (
            "wrappers none\nowned Root\nRoot = Root?",
            "src/kinds.rt\nsrc/nodes.rt\nspecs/Kinds.antt\nspecs/Casts.antt\n",
        ),
        (
            "wrappers none\ntoken T\nset Set = T\nRoot = T",
            "src/kinds.rt\nspecs/Kinds.antt\nproofs/SetLemmas.antt\n",
        ),
    ];

    #[test]
    fn files_are_those_that_are_wanted(rt: HostRuntime) -> Result<(), Fail> {
        for (lines, files) in GIVEN.iter() {
            let given = files_of(rt.alloc(), lines)?;
            assert!(rt; given.as_str() == *files, "{given}");
        }
        Ok(())
    }
}
