use scripts::script::perform;
use std::process::Abort;
use std::test::Fail;

// What a script at fault leaves: its transcript, and its fault.
fn told(
    rt: &(impl Abort + AllocGlobal),
    script: &[u8],
    transcript: &[u8],
    fault: &str,
) -> Result<(), Fail> {
    let (left, ended) = perform(rt.alloc(), script);
    assert_eq!(rt; left.bytes(), transcript);
    let found = ended.err().ok_or("the script is not at fault")?;
    assert_eq!(rt; found.to_string(rt.alloc())?.as_str(), fault);
    Ok(())
}

#[test]
fn out_of_turn(rt: HostRuntime) -> Result<(), Fail> {
    told(
        &rt,
        b"# nothing yet\n\npolicy",
        b"",
        "line 3: the first command of a script is 'scenario'",
    )?;
    told(
        &rt,
        b"scenario a\nlevels 1",
        b"scenario a\n",
        "line 2: no lattice is made",
    )?;
    told(
        &rt,
        b"scenario a\nlattice rows 3 2\nlevels 1\n",
        b"scenario a\nlattice: made\n",
        "line 3: no book is chosen",
    )?;
    told(
        &rt,
        b"scenario a\nlattice rows 3 2\nbook row 0 1 0\nlattice rows 3 3\npolicy\n",
        b"scenario a\nlattice: made\nlattice: refused levels 2 at 0\n",
        "line 5: no lattice is made",
    )
}

#[test]
fn words_at_fault(rt: HostRuntime) -> Result<(), Fail> {
    told(
        &rt,
        b"scenario a b",
        b"",
        "line 1: there is a word too many",
    )?;
    told(
        &rt,
        b"scenario a\ndance",
        b"scenario a\n",
        "line 2: there is no such command",
    )?;
    told(
        &rt,
        b"scenario a\nlattice rows 3 70000",
        b"scenario a\n",
        "line 2: the words are no lattice",
    )?;
    told(
        &rt,
        b"scenario a\nlattice pair pair tags 1 pair tags 1 tags 1 tags 1",
        b"scenario a\n",
        "line 2: the words are no lattice",
    )?;
    told(
        &rt,
        b"scenario a\nbook row 1 2",
        b"scenario a\n",
        "line 2: a word is missing",
    )?;
    told(
        &rt,
        b"scenario a\nnodes 0 1 2",
        b"scenario a\n",
        "line 2: the count of hexadecimal digits is odd",
    )
}

#[test]
fn levels_at_fault(rt: HostRuntime) -> Result<(), Fail> {
    told(
        &rt,
        b"scenario a\nlattice rows 3 2\nbook row 0 1 0\nlevels 256",
        b"scenario a\nlattice: made\n",
        "line 4: a word is no level of the lattice's shape",
    )?;
    told(
        &rt,
        b"scenario a\nlattice pair tags 1 pair rows 1 tags 1\nbook row 0 1 0\nfigures 1/2",
        b"scenario a\nlattice: made\n",
        "line 4: a word is no level of the lattice's shape",
    )
}

#[test]
fn closes(rt: HostRuntime) {
    let (left, ended) = perform(
        rt.alloc(),
        b"scenario a\nlattice pair tags 0 pair rows 1 tags 3\nbook fixed 1 1 1\nlevels 0/0/2\nfigures 1/255/0x3\npolicy # shown",
    );
    assert!(rt; ended.is_ok());
    assert_eq!(rt;
        left.bytes(),
        b"scenario a\nlattice: made\npolicy: made\ntype 0: 0/0/2 0/0/2\nfigure 0: 1/255/3\ndone: 1 scenarios, 1 policies made and 0 refused, 0 programs accepted and 0 refused, 0 runs with a result and 0 cut\n".as_slice()
    );
}

#[test]
fn programs_in_bytes(rt: HostRuntime) {
    let (left, ended) = perform(
        rt.alloc(),
        b"scenario a\nnodes 0 a\nfunctions ff 0B\napps\napps 7f\nclear",
    );
    assert!(rt; ended.is_ok());
    assert_eq!(rt;
        left.bytes(),
        b"scenario a\ndone: 1 scenarios, 0 policies made and 0 refused, 0 programs accepted and 0 refused, 0 runs with a result and 0 cut\n".as_slice()
    );
}
