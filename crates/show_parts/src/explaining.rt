//! `explain WORDS`: pictures of the eddy at work on the statements of a script.

ghost use Rattle.std.specs.Prelude.{All};
ghost use Rattle.run_base.specs.Runnable.{IsRunnable};

use crate::planning::{command_of, plan_of, query_in};
use crate::predicates::NAMES;
use crate::refusal::Refusal;
use crate::running::figures_for;
use crate::showing::Shown;
use command_line::{Command, PolicyName, TableWord};
use eddy_picture::{Scope, push_svg, svg_file, text_of};
use eddy_query::Fitting;
use outside::{Folder, Sink};
use route_policy::{AnyPolicy, Greedy, Lottery, Pressure, RouteScript};
use run_base::Bound;
use run_plan::Plan;
use sq_expr::Block;
use sq_value::{Predicates, Tables};
use std::alloc::Global;

// The pictures as text, and as groups of SVG, which are so high together.
#[derive(Drop)]
struct Pictures {
    text: String,
    groups: String,
    height: usize,
}

// The policy that the words name, before its first choice; none where a route script isn't one.
fn policy_of(command: &Command) -> Option<AnyPolicy> {
    match command.policy {
        PolicyName::Lottery => Some(AnyPolicy::Lottery(Lottery::new(command.seed))),
        PolicyName::Pressure => Some(AnyPolicy::Pressure(Pressure::new())),
        PolicyName::Greedy => Some(AnyPolicy::Greedy(Greedy::new())),
        PolicyName::Script => match RouteScript::read(command.route.as_str()) {
            Ok(script) => Some(AnyPolicy::Script(script)),
            Err(_) => None,
        },
    }
}

// A label for each alias: its table's name, with the alias's number where others use the table.
fn labels_of(alloc: Global, block: &Block, names: &[TableWord]) -> Result<Vec<String>, Refusal> {
    let uses = block.aliases.as_slice();
    let mut labels = Vec::new(alloc);
    for (place, it) in uses.iter().enumerate() {
        let table = it.table;
        let name = match names.get(table as usize) {
            Some(word) => word.name.as_str(),
            None => "?",
        };
        let others = uses.iter().filter(|other| other.table == table).count();
        let label = if others > 1 {
            format!(in alloc; "{name}#{place}")?
        } else {
            String::from_str(alloc, name)?
        };
        labels.push(label)?;
    }
    Ok(labels)
}

// Adds the picture of the run of a statement.
fn push_picture<F: Predicates>(
    alloc: Global,
    pictures: &mut Pictures,
    number: usize,
    bound: &Bound,
    tables: &Tables,
    command: &Command,
    names: &[TableWord],
    functions: &F,
) -> Result<(), Refusal>
    requires { IsRunnable (F.kinds_of functions.now) tables.now bound.now }
{
    let block = &bound.block;
    let (Some(first), Some(second)) = (policy_of(command), policy_of(command)) else {
        return Err(Refusal::Words);
    };
    let query = Fitting::new(block, tables, functions);
    let figures = figures_for(alloc, number, &query, first, second)?;
    let labels = labels_of(alloc, block, names)?;
    let scope = Scope {
        block,
        tables,
        labels: labels.as_slice(),
        predicates: &NAMES,
    };
    let text = text_of(alloc, &scope, &figures)?;
    pictures.text.push_str(text.as_str())?;
    pictures.height = push_svg(
        alloc,
        &mut pictures.groups,
        &scope,
        &figures,
        pictures.height,
    )?;
    Ok(())
}

// Adds the pictures of statements, which count from 1.
fn push_pictures<F: Predicates>(
    alloc: Global,
    pictures: &mut Pictures,
    bounds: &[Bound],
    tables: &Tables,
    command: &Command,
    names: &[TableWord],
    functions: &F,
) -> Result<(), Refusal>
    requires { All (IsRunnable (F.kinds_of functions.now) tables.now) bounds.now }
{
    for index in 0..bounds.len() {
        let bound = &bounds[index];
        let number = index + 1;
        push_picture(
            alloc, pictures, number, bound, tables, command, names, functions,
        )?;
    }
    Ok(())
}

// The pictures of the statements of a plan.
fn pictures_of<F: Predicates>(
    alloc: Global,
    plan: &Plan,
    command: &Command,
    names: &[TableWord],
    functions: &F,
) -> Result<Pictures, Refusal>
    requires { All (IsRunnable (F.kinds_of functions.now) plan.now.catalogue.tables) plan.now.statements }
{
    let mut pictures = Pictures {
        text: String::new(alloc),
        groups: String::new(alloc),
        height: 0,
    };
    let bounds = plan.statements.as_slice();
    let tables = plan.catalogue.tables();
    push_pictures(
        alloc,
        &mut pictures,
        bounds,
        tables,
        command,
        names,
        functions,
    )?;
    Ok(pictures)
}

// What is shown of pictures: their text, and where it is wanted they themselves as SVG.
fn shown_of(alloc: Global, pictures: Pictures, has_svg: bool) -> Result<Shown, Refusal> {
    let svg = if has_svg {
        Some(svg_file(alloc, pictures.groups.as_str(), pictures.height)?)
    } else {
        None
    };
    Ok(Shown {
        text: pictures.text,
        svg,
    })
}

/// The pictures of the statements that some words ask for, which are those of the program eddyql, without its demo and
/// its remotes. One worker runs each statement. Where the script or a table is refused the notes say why.
///
/// # Errors
/// The words aren't of the form; the script or a table is refused; or there is no memory.
pub(crate) fn explain<F: Folder, N: Sink, P: Predicates>(
    alloc: Global,
    words: &[String],
    has_svg: bool,
    functions: &P,
    folder: &mut F,
    notes: &mut N,
) -> Result<Shown, Refusal> {
    let command = command_of(alloc, words)?;
    let Some(query) = query_in(&command) else {
        return Err(Refusal::Words);
    };
    let plan = plan_of(alloc, query, functions, folder, notes)?;
    let pictures = pictures_of(alloc, &plan, &command, query.tables.as_slice(), functions)?;
    shown_of(alloc, pictures, has_svg)
}
