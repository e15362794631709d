//! A script at whose end the document has all symbols that it may have. It is longer than an input
//! of the program may be.
ghost use Rattle.xs_pair.specs.{IsSoundPair};

use std::alloc::Global;
use std::test::Fail;
use xs_class::{Bytes, Memory, Sym, Word};
use xs_pair::Two;
use xs_script::{ScriptFault, play};
use xs_test_tools::{PAIR, add_characters, two_of};

/// Puts that many letters at the front.
fn put_many(script: &mut Word, count: u32) -> Result<(), Memory> {
    add_characters(script, "put 0 0 \"")?;
    for _ in 0..count {
        script.push(Sym::of_char('x'))?;
    }
    add_characters(script, "\"\n")
}

/// The answer of a script by which the document would have one symbol too many, and then has just
/// as many as it may have.
fn at_the_limit(alloc: Global, two: &Two) -> Result<Bytes, ScriptFault>
    requires { IsSoundPair two.now }
{
    let mut script = Word::new(alloc);
    put_many(&mut script, 1_048_000)?;
    put_many(&mut script, 577)?;
    put_many(&mut script, 576)?;
    add_characters(&mut script, "put 0 0 \"x\"\nput 7 1 \"x\"\ntree\n")?;
    play(alloc, two, &script)
}

const AT_THE_LIMIT: &str = "ok 1048000\nno long\nok 1048576\nno long\nok 1048576\nforeign 0\n";

fn is_at_the_limit(alloc: Global, two: &Two) -> Result<bool, ScriptFault>
    requires { IsSoundPair two.now }
{
    let found = at_the_limit(alloc, two)?;
    Ok(found.as_slice() == AT_THE_LIMIT.as_bytes())
}

#[test]
fn a_document_has_at_most_so_many_symbols(rt: HostRuntime) -> Result<(), Fail> {
    let two = two_of(rt.alloc(), PAIR.as_bytes())?;
    assert!(rt; is_at_the_limit(rt.alloc(), &two) == Ok(true));
    Ok(())
}
