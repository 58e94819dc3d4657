//! Reads and writes a plan as text: its scope, its work, the list of its strategy, and the lines of its certificate.
ghost use Rattle.std.specs.Prelude.{◌≡◌, ◌≢◌, ◌⊎◌, ◌++◌, [], Ok, Err, IfOk, IfErr, IsTrue, OnOk, OnErr};
ghost use Rattle.std.specs.List.{flat_map, join_with_byte};
ghost use Rattle.wh_text_lines.specs.PlanGrammar.{PlanFaults, PlanGrammar};
ghost use Rattle.wh_text_lines.specs.PlanReadsBack.{PlanReadsBack, TextsDiffer};
ghost use Rattle.wh_text_lines.specs.TreeGrowth.{BegunTrees, WholeTrees};
ghost use Rattle.wh_text_lines.specs.PlanText.{certificate_of, certificate_text, has_its_tree, line_text, may_end, pair_words, plan_from, plan_of, plan_text, scope_text, work_in};

mod line;
mod node;
mod places;
mod said;
mod tree;

use crate::expression::append_name;
use crate::lines::read_lines;
use crate::strategy::append_strategy;
use line::PlanLine;
use said::{PlanLines, scope_in};
use std::alloc::{AllocError, Global};
use tree::append_tree;
use wh_cert::{Certificate, PairMin, PairMins, Planned, Scope, Tree, TreeNode};
use wh_strategy::Strategy;
use wh_text::{LoadFault, Names};

/// What the text of a plan says, none of it judged.
#[derive(Drop)]
pub struct Plan {
    /// The strategies that its own is said to be least among.
    pub scope: Scope,
    /// The work that it is said to have, in cost times rows by weight.
    pub work: u128,
    /// The list.
    pub strategy: Strategy,
    /// The reason that it is least.
    pub certificate: Certificate,
}

/// Returns the work that the second of these lines says.
fn work_in(lines: &[PlanLine]) -> u128
    ensures { result ≡ work_in lines.now }
{
    match lines {
        [_, PlanLine::Worked(work), ..] => *work,
        _ => 0,
    }
}

/// Makes the certificate of this scope, of pairs or of the nodes of a tree.
fn certificate_of(scope: Scope, pairs: Vec<PairMin>, nodes: Vec<TreeNode>) -> Certificate
    requires { IsTrue (has_its_tree scope nodes.items) }
    ensures { result ≡ certificate_of scope pairs.items nodes.items }
{
    match scope {
        Scope::All => Certificate::Pairs(PairMins::new(pairs)),
        Scope::OneWay => match Tree::new(nodes) {
            Some(tree) => Certificate::Search(tree),
            None => unreachable!(),
        },
    }
}

/// Makes the plan that these lines say.
fn plan_from(alloc: Global, lines: Vec<PlanLine>) -> Result<Plan, AllocError>
    requires { IsTrue (may_end lines.items) }
    ensures { IfOk result (λ plan. plan ≡ plan_from lines.items) }
{
    let scope = scope_in(&lines);
    let work = work_in(&lines);
    let mut list = Vec::new(alloc);
    let mut pairs = Vec::new(alloc);
    let mut nodes = Vec::new(alloc);
    for line in lines {
        match line {
            PlanLine::Listed(expression) => list.push(expression)?,
            PlanLine::Paired(pair) => pairs.push(pair)?,
            PlanLine::Searched(node) => nodes.push(node)?,
            PlanLine::Scoped(_) | PlanLine::Worked(_) => {}
        }
    }
    Ok(Plan {
        scope,
        work,
        strategy: Strategy::new(list),
        certificate: certificate_of(scope, pairs, nodes),
    })
}

/// Reads the plan that the text is, over these views: `scope all` or `scope one-way`, `work N`, the lines of a strategy, and its
/// certificate. For all, that is a line `pair V U W N` for each pair. For one-way it is the nodes of a tree at most [`wh_cert::MAX_DEPTH`]
/// deep, in preorder, each a line `bound`, `cycle E; E; ..` or `branch U W`. Lines of spaces and tabs alone are skipped. Whether the plan
/// is right is for `certify` to judge.
///
/// The fault is `Plan` with the first line that may not stand where it does, counted from 1, blank ones included. Where the text ends too
/// early, that is the line after its last. An empty text is at fault at line 1, always.
pub fn read_plan(alloc: Global, names: &Names, text: &[u8]) -> Result<Plan, LoadFault>
    ensures ok { IfOk result (λ plan. plan_of names.now text.now ≡ Ok plan) }
    ensures err { IfErr result (λ f. (f ≡ LoadFault.Memory) ⊎ (plan_of names.now text.now ≡ Err f)) }
    ensures memory { result ≡ Err LoadFault.Memory → text.now ≢ [] }
{
    let said = read_lines(alloc, &PlanLines { names }, text)?;
    Ok(plan_from(alloc, said.into_lines())?)
}

/// Appends the line of a pair, without its LF.
fn append_pair(
    alloc: Global,
    out: &mut Vec<u8>,
    names: &Names,
    pair: PairMin,
) -> Result<(), AllocError>
    ensures { OnOk result (out.new.items ≡ out.old.items ++ join_with_byte 32 (pair_words names.now pair)) }
{
    let least = pair.least;
    let end = format!(in alloc; " {least}")?;
    out.extend_from_slice(b"pair ")?;
    append_name(out, names, pair.parent)?;
    out.push(b' ')?;
    append_name(out, names, pair.first)?;
    out.push(b' ')?;
    append_name(out, names, pair.second)?;
    out.extend_from_slice(end.as_bytes())
}

/// Appends the lines of these pairs.
fn append_pairs(
    alloc: Global,
    out: &mut Vec<u8>,
    names: &Names,
    pairs: &[PairMin],
) -> Result<(), AllocError>
    ensures { OnOk result (out.new.items ≡ out.old.items ++ flat_map (λ pair. line_text (pair_words names.now pair)) pairs.now) }
{
    for pair in pairs {
        append_pair(alloc, out, names, *pair)?;
        out.push(b'\n')?;
    }
    Ok(())
}

/// Appends the lines of a certificate.
fn append_certificate(
    alloc: Global,
    out: &mut Vec<u8>,
    names: &Names,
    certificate: &Certificate,
) -> Result<(), AllocError>
    ensures { OnOk result (out.new.items ≡ out.old.items ++ certificate_text names.now certificate.now) }
{
    match certificate {
        Certificate::Pairs(pairs) => append_pairs(alloc, out, names, pairs.as_slice()),
        Certificate::Search(tree) => append_tree(out, names, tree.as_slice()),
    }
}

/// Returns the name of a scope.
fn scope_text(scope: Scope) -> &'static str
    ensures { result.now ≡ scope_text scope }
{
    match scope {
        Scope::All => "all",
        Scope::OneWay => "one-way",
    }
}

/// A law of the definitions: the nodes that a one-way plan may have so far are exactly those that begin a tree in preorder. It may end
/// exactly where they are all of one. None of them is more than [`wh_cert::MAX_DEPTH`] deep.
pub fn tree_lines_law()
    ensures begun { BegunTrees }
    ensures whole { WholeTrees }
{}

/// A law of the definitions: a text is read as a plan exactly where its lines with words are those of that plan, in order. They are its
/// scope, its work, its list, and a certificate that fits the scope, whose nodes, if it has some, are all of a tree. Any other text is at
/// fault at the first line with which its lines no longer begin a plan, or after its last line.
pub fn plan_grammar_law()
    ensures grammar { PlanGrammar }
    ensures faults { PlanFaults }
{}

/// A law of the definitions: over plain and distinct names, a plan whose certificate fits its scope is read back from its text as it was.
/// So no two of them have one text. For a one-way plan the names have no semicolon, and no cycle is empty.
pub fn plan_reads_back_law()
    ensures reads_back { PlanReadsBack }
    ensures distinct { TextsDiffer }
{}

/// Appends the plan as it is written. A number that is no view's is written as an empty name. Where memory fails, nothing is appended.
pub fn write_plan(
    alloc: Global,
    out: &mut Vec<u8>,
    names: &Names,
    planned: &Planned,
) -> Result<(), AllocError>
    ensures ok { OnOk result (out.new.items ≡ out.old.items
        ++ plan_text names.now planned.now.scope planned.now.work planned.now.correct.list planned.now.certificate) }
    ensures err { OnErr result (out.new.items ≡ out.old.items) }
{
    let scope = scope_text(planned.scope);
    let work = planned.work;
    let head = format!(in alloc; "scope {scope}\nwork {work}\n")?;
    let mut text = Vec::new(alloc);
    text.extend_from_slice(head.as_bytes())?;
    append_strategy(&mut text, names, planned.correct.strategy())?;
    append_certificate(alloc, &mut text, names, &planned.certificate)?;
    out.extend_from_slice(&text)
}
