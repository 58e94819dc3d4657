//! Written shapes from outside, and the view and the text that each fault names.

use std::alloc::{AllocError, Global};
use std::process::Abort;
use std::test::Fail;
use test_given::shapes::shaped;
use wh_dag::{ChildLists, Couple, Name, Shape, ShapeFault, SiblingPair};

/// A fault by its number, the view at fault and the text that it names.
fn told(fault: &ShapeFault) -> (u8, usize, &str) {
    let (view, text) = match fault {
        ShapeFault::Duplicate { view, name } => (*view, name.as_str()),
        ShapeFault::Unknown { view, child } => (*view, child.as_str()),
        ShapeFault::Forward { view, child } => (*view, child.as_str()),
        ShapeFault::Repeated { view, child } => (*view, child.as_str()),
        ShapeFault::TooMany { view, name } => (*view, name.as_str()),
        ShapeFault::EmptyOver { view, name } => (*view, name.as_str()),
        ShapeFault::Memory => (0, ""),
    };
    (fault.number(), view, text)
}

#[test]
fn a_view_over_two_bases_reads_back(rt: HostRuntime) -> Result<(), Fail> {
    let alloc = rt.alloc();
    let shape = shaped(alloc, &[("a", "-"), ("b", "-"), ("v", "b a")])?;
    assert_eq!(rt; shape.len(), 3);
    assert!(rt; !shape.is_empty());
    assert_eq!(rt; shape.name(2), "v");
    assert_eq!(rt; shape.children(0), [].as_slice());
    assert_eq!(rt; shape.children(2), [1, 0].as_slice());
    lists_read_back(&rt, alloc, shape.child_lists())?;
    Ok(())
}

#[test]
fn children_in_another_order_are_other_lists(rt: HostRuntime) -> Result<(), Fail> {
    let shape = shaped(rt.alloc(), &[("a", "-"), ("b", "-"), ("v", "b a")])?;
    let other = shaped(rt.alloc(), &[("a", "-"), ("b", "-"), ("v", "a b")])?;
    assert!(rt; !other.child_lists().is_same(shape.child_lists()));
    Ok(())
}

/// The child lists of three views give back those of the last, also when they are copied.
fn lists_read_back(rt: &impl Abort, alloc: Global, lists: &ChildLists) -> Result<(), AllocError> {
    assert_eq!(rt; lists.len(), 3);
    assert!(rt; !lists.is_empty());
    assert_eq!(rt; lists.of(2), [1, 0].as_slice());
    assert!(rt; lists.copy(alloc)?.is_same(lists));
    Ok(())
}

/// Views, of which v is over two bases and w over v and the first base.
static THREE_LEVELS: [(&str, &str); 4] = [("a", "-"), ("b", "-"), ("v", "a b"), ("w", "v a")];

#[test]
fn levels_follow_the_views(rt: HostRuntime) -> Result<(), Fail> {
    let shape = shaped(rt.alloc(), &THREE_LEVELS)?;
    assert_eq!(rt; shape.len(), 4);
    assert_eq!(rt; shape.level(1), 0);
    assert_eq!(rt; shape.level(2), 1);
    assert_eq!(rt; shape.level(3), 2);
    Ok(())
}

#[test]
fn parents_follow_the_views(rt: HostRuntime) -> Result<(), Fail> {
    let alloc = rt.alloc();
    let shape = shaped(alloc, &THREE_LEVELS)?;
    assert_eq!(rt; shape.len(), 4);
    for (view, parents) in [(0, [2, 3].as_slice()), (1, &[2]), (3, &[])] {
        assert_eq!(rt; shape.parents(alloc, view)?.as_slice(), parents);
    }
    Ok(())
}

#[test]
fn shape_kinds_follow_the_views(rt: HostRuntime) -> Result<(), Fail> {
    let alloc = rt.alloc();
    for (views, kind) in [
        (
            [("a", "-"), ("b", "-"), ("v", "a b")].as_slice(),
            "tree, uniform",
        ),
        (
            &[("b", "-"), ("c", "-"), ("v1", "b c"), ("v2", "b v1")],
            "neither",
        ),
        (
            &[("a", "-"), ("b", "-"), ("v", "a b"), ("w", "a b")],
            "uniform",
        ),
        (&[("p", "-"), ("s", "-"), ("q", "p"), ("r", "q s")], "tree"),
    ] {
        assert_eq!(rt; kind_of(&shaped(alloc, views)?), kind);
    }
    Ok(())
}

/// What a shape is, in words.
fn kind_of(shape: &Shape) -> &'static str {
    match (shape.is_tree(), shape.is_uniform()) {
        (true, true) => "tree, uniform",
        (true, false) => "tree",
        (false, true) => "uniform",
        (false, false) => "neither",
    }
}

#[test]
fn a_name_of_two_views_means_the_first(rt: HostRuntime) -> Result<(), Fail> {
    // View 1 is over "a", which view 0 is; that view 2 is "a" again comes to light in its own turn.
    tells(
        &rt,
        rt.alloc(),
        &[("a", "-"), ("v", "a"), ("a", "-")],
        (1, 2, "a"),
    )
}

#[test]
fn the_first_fault_is_told(rt: HostRuntime) -> Result<(), Fail> {
    let alloc = rt.alloc();
    // Alone: each fault with what it names.
    tells(&rt, alloc, &[("a", "-"), ("a", "-")], (1, 1, "a"))?;
    tells(&rt, alloc, &[("v", "a")], (2, 0, "a"))?;
    tells(&rt, alloc, &[("v", "v")], (3, 0, "v"))?;
    tells(&rt, alloc, &[("v", "a"), ("a", "-")], (3, 0, "a"))?;
    tells(&rt, alloc, &[("a", "-"), ("v", "a a")], (4, 1, "a"))?;
    tells(&rt, alloc, &[("v", "a b c d e f g")], (5, 0, "v"))?;
    tells(&rt, alloc, &[("v", "")], (6, 0, "v"))?;
    Ok(())
}

#[test]
fn of_two_faults_the_first_is_told(rt: HostRuntime) -> Result<(), Fail> {
    let alloc = rt.alloc();
    tells(&rt, alloc, &[("a", "-"), ("a", "")], (1, 1, "a"))?;
    tells(
        &rt,
        alloc,
        &[("a", "-"), ("a", "a b c d e f g")],
        (1, 1, "a"),
    )?;
    tells(&rt, alloc, &[("v", ""), ("v", "-")], (6, 0, "v"))?;
    tells(&rt, alloc, &[("v", "x v")], (2, 0, "x"))?;
    tells(&rt, alloc, &[("v", "v x")], (3, 0, "v"))?;
    tells(&rt, alloc, &[("v", "v v")], (3, 0, "v"))?;
    tells(&rt, alloc, &[("a", "-"), ("v", "a a v")], (4, 1, "a"))?;
    Ok(())
}

/// The shape of these views is refused by this fault: its number, the view, and the name that it tells.
fn tells(
    rt: &impl Abort,
    alloc: Global,
    rows: &[(&str, &str)],
    want: (u8, usize, &str),
) -> Result<(), Fail> {
    is_refused(rt, shaped(alloc, rows), want);
    Ok(())
}

/// What was made is refused by this fault.
fn is_refused(rt: &impl Abort, made: Result<Shape, ShapeFault>, want: (u8, usize, &str)) {
    match made {
        Ok(_) => assert!(rt; false, "no fault"),
        Err(fault) => assert_eq!(rt; told(&fault), want),
    }
}

#[test]
fn six_children_pass_and_seven_are_too_many(rt: HostRuntime) -> Result<(), Fail> {
    let alloc = rt.alloc();
    let mut rows = [
        ("a", "-"),
        ("b", "-"),
        ("c", "-"),
        ("d", "-"),
        ("e", "-"),
        ("f", "-"),
        ("g", "-"),
        ("v", "a b c d e f"),
    ];
    let shape = shaped(alloc, &rows)?;
    assert_eq!(rt; shape.len(), 8);
    assert_eq!(rt; shape.children(7).len(), 6);
    rows[7] = ("v", "a b c d e f g");
    tells(&rt, alloc, &rows, (5, 7, "v"))
}

/// Base views "0", "1" and so on, as many as count.
fn bases(
    alloc: Global,
    count: usize,
) -> Result<(Vec<String>, Vec<Option<Vec<String>>>), AllocError> {
    let mut names = Vec::new(alloc);
    let mut over = Vec::new(alloc);
    for number in 0..count {
        names.push(format!(in alloc; "{number}")?)?;
        over.push(None)?;
    }
    Ok((names, over))
}

#[test]
fn the_65th_view_is_one_too_many(rt: HostRuntime) -> Result<(), Fail> {
    let alloc = rt.alloc();
    let (names, over) = bases(alloc, 64)?;
    assert_eq!(rt; names.len(), over.len());
    assert_eq!(rt; Shape::new(alloc, names, over)?.len(), 64);
    let (names, over) = bases(alloc, 65)?;
    refuses(&rt, alloc, names, over, (5, 64, "64"));
    Ok(())
}

#[test]
fn a_view_over_nothing_is_told_before_the_65th(rt: HostRuntime) -> Result<(), Fail> {
    let alloc = rt.alloc();
    let (names, mut over) = bases(alloc, 65)?;
    over.pop();
    over.pop();
    over.push(Some(Vec::new(alloc)))?;
    over.push(None)?;
    refuses(&rt, alloc, names, over, (6, 63, "63"));
    Ok(())
}

/// The shape of these lists is refused by this fault.
fn refuses(
    rt: &impl Abort,
    alloc: Global,
    names: Vec<String>,
    over: Vec<Option<Vec<String>>>,
    want: (u8, usize, &str),
) {
    assert_eq!(rt; names.len(), over.len());
    is_refused(rt, Shape::new(alloc, names, over), want);
}

#[test]
fn a_name_gives_its_text_back(rt: HostRuntime) -> Result<(), Fail> {
    let name = Name::new(String::from_str(rt.alloc(), "orders")?);
    assert_eq!(rt; name.as_str(), "orders");
    assert_eq!(rt; name.into_string().as_str(), "orders");
    Ok(())
}

#[test]
fn want_of_memory_is_the_seventh_refusal(rt: HostRuntime) {
    assert_eq!(rt; ShapeFault::Memory.number(), 7);
}

static PAIRS: [SiblingPair; 2] = [
    SiblingPair {
        parent: 2,
        lower: 0,
        higher: 1,
    },
    SiblingPair {
        parent: 3,
        lower: 0,
        higher: 2,
    },
];

static COUPLES: [Couple; 2] = [
    Couple {
        lower: 0,
        higher: 1,
    },
    Couple {
        lower: 0,
        higher: 2,
    },
];

// w is over v and b, in this order: its pair has the lower number first all the same.
#[test]
fn siblings_and_couples_rise(rt: HostRuntime) -> Result<(), Fail> {
    let alloc = rt.alloc();
    let rows = [("b", "-"), ("c", "-"), ("v", "b c"), ("w", "v b")];
    let shape = shaped(alloc, &rows)?;
    assert_eq!(rt; shape.sibling_pairs(alloc)?.as_slice(), PAIRS.as_slice());
    assert_eq!(rt; shape.couples(alloc)?.as_slice(), COUPLES.as_slice());
    Ok(())
}
