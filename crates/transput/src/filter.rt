//! The filters Take, Skip, Only and Number: the middle stages of a stream.
ghost use Rattle.std.specs.Prelude.{◌≡◌, ◌&&◌, IfOk, true, pos, ◌-ℤ◌, ◌<ℤ◌, int_le};
ghost use Rattle.std.specs.Ordering.{int_eq};
ghost use Rattle.epl_syntax.specs.Operators.{greatest};
ghost use Rattle.epl_syntax.specs.Outline.{starts};
ghost use Rattle.epl_syntax.specs.Simple.{returns_code};
ghost use Rattle.epl_syntax.specs.declared.effect.Answer.TheVariants as answer;
ghost use Rattle.epl_syntax.specs.Streams as streams;
ghost use Rattle.epl_syntax.specs.Filters as filters;
ghost use Rattle.transput.specs.View.{rule_of, filter_of, filter_stage, moved_of, came_of};

use crate::effects::{
    END, Heard, NOT_OPENED, OPENED, OUT_OF_REACH, TROUBLE, asks_for, came, is_fine, returns_code,
    returns_item, returns_none,
};
use crate::rule::Rule;
use crate::values::{cap_at, no_items, no_text, number_at, take_value, truth_at, without_first};
use capability::Cap;
use eden_value::{Items, Txt, Value, copy, copy_items};
use epl_syntax::{Answer, Effect, is_called};
use std::alloc::{AllocError, Global};
use std::mem;

/// What is left to do of an operation of a filter.
#[derive(Drop)]
pub enum FilterStage {
    /// It is opened with these arguments, and then saved.
    Opens { args: Items },
    /// The save of what it was opened with is told.
    OpenSaved,
    /// It hands out the item at a position, saved before where it was not.
    Transfers { position: i64 },
    /// The save is told, and the item at a position is handed out.
    TransferSaved { position: i64 },
    /// The answer of the stage before is told.
    Asked,
    /// The save of an item that was taken in is told. It is handed on or not.
    ItemSaved { passed: bool },
}

/// What a filter holds.
#[derive(Drop)]
pub struct Filter {
    /// The stage before.
    pub src: Option<Cap>,
    /// The argument: one value, or none where the type has no argument.
    pub arg: Items,
    /// How many items it took in.
    pub got: i64,
    /// How many items it handed on.
    pub made: i64,
    /// The last item that it handed on.
    pub last: Value,
    /// Whether what it holds was saved.
    pub saved: bool,
}

/// What a turn comes to.
#[derive(Drop)]
pub struct Moved {
    filter: Filter,
    stage: FilterStage,
    effect: Effect,
}

impl Filter {
    /// What stands in the values of the variables.
    fn of(rule: Rule, vars: Items) -> Filter
        ensures { filter_of result ≡ filters.filter (rule_of rule) vars }
    {
        let mut vars = vars;
        let count = rule.arguments();
        let src = cap_at(&vars, 0);
        let got = number_at(&vars, count + 1);
        let made = number_at(&vars, count + 2);
        let saved = truth_at(&vars, count + 4);
        let last = take_value(&mut vars, count + 3);
        vars.values.truncate(count + 1);
        Filter {
            src,
            arg: without_first(vars),
            got,
            made,
            last,
            saved,
        }
    }

    /// The values of the variables.
    fn into_values(self) -> Result<Items, AllocError>
        ensures { IfOk result (λ vars. vars ≡ filters.values_of (filter_of self)) }
    {
        let mut values = self.arg.values;
        values.insert(0, Value::Cap { cap: self.src })?;
        values.push(Value::Int { n: self.got })?;
        values.push(Value::Int { n: self.made })?;
        values.push(self.last)?;
        values.push(Value::Bool { b: self.saved })?;
        Ok(Items { values })
    }
}

/// The turn ends in an answer.
fn answers(filter: Filter, effect: Effect) -> Moved
    ensures { moved_of result ≡ filters.answers (filter_of filter) effect }
{
    Moved {
        filter,
        stage: FilterStage::Asked,
        effect,
    }
}

/// It is saved, and goes on so.
fn saves(filter: Filter, stage: FilterStage) -> Moved
    ensures { moved_of result ≡ filters.saves (filter_of filter) (filter_stage stage) }
{
    Moved {
        filter: Filter {
            saved: false,
            ..filter
        },
        stage,
        effect: Effect::Checkpoint,
    }
}

/// What it holds was saved.
fn acknowledged(filter: Filter) -> Filter
    ensures { filter_of result ≡ record (filter_of filter) { saved = true } }
{
    Filter {
        saved: true,
        ..filter
    }
}

/// A code is returned, and nothing else.
fn answers_code(alloc: Global, filter: Filter, code: u8) -> Result<Moved, AllocError>
    ensures { IfOk result (λ m. moved_of m ≡ filters.answers (filter_of filter) (returns_code code)) }
{
    Ok(answers(filter, returns_code(alloc, code)?))
}

/// A code is returned, and no item.
fn answers_none(alloc: Global, filter: Filter, code: u8) -> Result<Moved, AllocError>
    ensures { IfOk result (λ m. moved_of m ≡ filters.answers (filter_of filter) (streams.returns_none code)) }
{
    Ok(answers(filter, returns_none(alloc, code)?))
}

/// The last item is returned.
fn answers_last(alloc: Global, filter: Filter) -> Result<Moved, AllocError>
    ensures { IfOk result (λ m. moved_of m ≡ filters.answers (filter_of filter) (streams.returns_item (filter_of filter).last)) }
{
    let item = copy(alloc, &filter.last)?;
    Ok(answers(filter, returns_item(alloc, item)?))
}

/// Whether a count cannot be counted on.
fn is_spent(count: i64) -> bool
    ensures { result ≡ filters.is_spent count }
{
    count >= i64::MAX
}

/// The stage before is asked for the next item, while its number is one.
fn asks(alloc: Global, filter: Filter) -> Result<Moved, AllocError>
    ensures { IfOk result (λ m. moved_of m ≡ filters.asks (filter_of filter)) }
{
    if is_spent(filter.got) {
        return answers_none(alloc, filter, TROUBLE);
    }
    let Some(src) = filter.src else {
        return answers_none(alloc, filter, TROUBLE);
    };
    let effect = asks_for(alloc, src, filter.got)?;
    Ok(answers(filter, effect))
}

/// Whether the item at a position is the last one that was handed on.
fn is_last(filter: &Filter, position: i64) -> bool
    ensures { result ≡ (int_le (pos 1) filter.now.made && int_eq position (filter.now.made -ℤ pos 1)) }
{
    filter.made >= 1 && position == filter.made - 1
}

/// The item at a position is handed out: the last one again, or the next one.
fn gives(alloc: Global, rule: Rule, filter: Filter, position: i64) -> Result<Moved, AllocError>
    ensures { IfOk result (λ m. moved_of m ≡ filters.gives (rule_of rule) (filter_of filter) position) }
{
    if is_last(&filter, position) {
        return answers_last(alloc, filter);
    }
    if position != filter.made {
        return answers_none(alloc, filter, OUT_OF_REACH);
    }
    if rule.is_over(&filter) {
        return answers_none(alloc, filter, END);
    }
    asks(alloc, filter)
}

/// An item is taken in and handed on.
fn handed_on(alloc: Global, rule: Rule, filter: Filter, item: Txt) -> Result<Filter, AllocError>
    requires got { filter.got <ℤ greatest }
    requires made { filter.made <ℤ greatest }
    ensures { IfOk result (λ f. filter_of f ≡ filters.handed_on (rule_of rule) item (filter_of filter)) }
{
    let text = rule.becomes(alloc, &filter, item)?;
    Ok(Filter {
        got: filter.got + 1,
        made: filter.made + 1,
        last: Value::Text { text },
        ..filter
    })
}

/// An item is taken in and not handed on.
fn passed_over(filter: Filter) -> Filter
    requires { filter.got <ℤ greatest }
    ensures { filter_of result ≡ filters.passed_over (filter_of filter) }
{
    Filter {
        got: filter.got + 1,
        ..filter
    }
}

/// An item is taken in, and saved before it is answered, while its number is one.
fn takes(alloc: Global, rule: Rule, filter: Filter, item: Txt) -> Result<Moved, AllocError>
    ensures { IfOk result (λ m. moved_of m ≡ filters.takes (rule_of rule) (filter_of filter) item) }
{
    if is_spent(filter.got) || is_spent(filter.made) {
        return answers_none(alloc, filter, TROUBLE);
    }
    if rule.passes(&filter, &item) {
        let filter = handed_on(alloc, rule, filter, item)?;
        return Ok(saves(filter, FilterStage::ItemSaved { passed: true }));
    }
    let filter = passed_over(filter);
    Ok(saves(filter, FilterStage::ItemSaved { passed: false }))
}

/// What the stage before answered is taken.
fn after_asking(
    alloc: Global,
    rule: Rule,
    filter: Filter,
    heard: Heard,
) -> Result<Moved, AllocError>
    ensures { IfOk result (λ m. moved_of m ≡ filters.after_asking (rule_of rule) (filter_of filter) (came_of heard)) }
{
    match heard {
        Heard::Item { text } => takes(alloc, rule, filter, text),
        Heard::End => answers_none(alloc, filter, END),
        Heard::Nothing => answers_none(alloc, filter, TROUBLE),
    }
}

/// It is open, with the stage before and the argument.
fn opened(filter: Filter, args: Items) -> Filter
    ensures { filter_of result ≡ filters.opened args (filter_of filter) }
{
    Filter {
        src: cap_at(&args, 0),
        arg: without_first(args),
        ..filter
    }
}

/// It is opened with arguments, where it is not open and they have a capability.
fn opens(alloc: Global, rule: Rule, vars: Items, args: Items) -> Result<Moved, AllocError>
    ensures { IfOk result (λ m. moved_of m ≡ filters.filter_turn (rule_of rule) vars (filters.opens args) answer.Go) }
{
    let filter = Filter::of(rule, vars);
    if filter.src.is_some() || cap_at(&args, 0).is_none() {
        return answers_code(alloc, filter, NOT_OPENED);
    }
    Ok(saves(opened(filter, args), FilterStage::OpenSaved))
}

/// The item at a position is handed out, where it is open, and saved before where it was not.
fn transfers(alloc: Global, rule: Rule, vars: Items, position: i64) -> Result<Moved, AllocError>
    ensures { IfOk result (λ m. moved_of m ≡ filters.filter_turn (rule_of rule) vars (filters.transfers position) answer.Go) }
{
    let filter = Filter::of(rule, vars);
    if filter.src.is_none() {
        return answers_none(alloc, filter, TROUBLE);
    }
    if !filter.saved {
        return Ok(saves(filter, FilterStage::TransferSaved { position }));
    }
    gives(alloc, rule, filter, position)
}

/// The save of an item that was taken in is told: it is handed on, or the next one is asked for.
fn item_saved(
    alloc: Global,
    rule: Rule,
    vars: Items,
    passed: bool,
    answer: &Answer,
) -> Result<Moved, AllocError>
    ensures { IfOk result (λ m. moved_of m ≡ filters.filter_turn (rule_of rule) vars (filters.item_saved passed) answer.now) }
{
    let filter = Filter::of(rule, vars);
    if !is_fine(answer) {
        return answers_none(alloc, filter, TROUBLE);
    }
    if passed {
        return answers_last(alloc, acknowledged(filter));
    }
    asks(alloc, acknowledged(filter))
}

/// What a filter does at a stage.
fn proceeds(
    alloc: Global,
    rule: Rule,
    vars: Items,
    stage: FilterStage,
    answer: Answer,
) -> Result<Moved, AllocError>
    ensures { IfOk result (λ m. moved_of m ≡ filters.filter_turn (rule_of rule) vars (filter_stage stage) answer) }
{
    match stage {
        FilterStage::Opens { args } => opens(alloc, rule, vars, args),
        FilterStage::OpenSaved => {
            let filter = Filter::of(rule, vars);
            if !is_fine(&answer) {
                return answers_code(alloc, filter, TROUBLE);
            }
            answers_code(alloc, acknowledged(filter), OPENED)
        }
        FilterStage::Transfers { position } => transfers(alloc, rule, vars, position),
        FilterStage::TransferSaved { position } => {
            let filter = Filter::of(rule, vars);
            if !is_fine(&answer) {
                return answers_none(alloc, filter, TROUBLE);
            }
            gives(alloc, rule, acknowledged(filter), position)
        }
        FilterStage::Asked => after_asking(alloc, rule, Filter::of(rule, vars), came(answer)),
        FilterStage::ItemSaved { passed } => item_saved(alloc, rule, vars, passed, &answer),
    }
}

/// A turn of a filter. What is left to do, and the effect.
pub fn filter_turn(
    alloc: Global,
    rule: Rule,
    vars: &mut Items,
    stage: FilterStage,
    answer: Answer,
) -> Result<(FilterStage, Effect), AllocError>
    ensures { IfOk result (λ r. (vars.new, filter_stage r.0, r.1)
        ≡ filters.filter_turn (rule_of rule) vars.old (filter_stage stage) answer) }
{
    let values = mem::replace(vars, no_items(alloc));
    let after = proceeds(alloc, rule, values, stage, answer)?;
    *vars = after.filter.into_values()?;
    Ok((after.stage, after.effect))
}

/// How an operation of a filter begins.
pub fn filter_begin(alloc: Global, operation: &Txt, args: &Items) -> Result<FilterStage, AllocError>
    ensures { IfOk result (λ stage. filter_stage stage ≡ filters.first_stage operation.now args.now) }
{
    if is_called(operation, b"Open") {
        let args = copy_items(alloc, args)?;
        return Ok(FilterStage::Opens { args });
    }
    Ok(FilterStage::Transfers {
        position: number_at(args, 0),
    })
}

/// Whether stored values are those of a filter: it handed on no fewer items than none, and no more than it took in.
pub fn counts_fit(rule: Rule, durable: &Items) -> bool
    ensures { result ≡ filters.counts_fit (rule_of rule) durable.now }
{
    let count = rule.arguments();
    let got = number_at(durable, count + 1);
    let made = number_at(durable, count + 2);
    0 <= made && made <= got
}

/// The values of the variables of a new filter.
pub fn filter_values(alloc: Global, rule: Rule) -> Result<Items, AllocError>
    ensures { IfOk result (λ vars. vars ≡ starts (filters.filter_slots (rule_of rule))) }
{
    let argument = match rule {
        Rule::Take | Rule::Skip => vec![in alloc; Value::Int { n: 0 }]?,
        Rule::Only => vec![in alloc; no_text(alloc)?]?,
        Rule::Number => Vec::new(alloc),
    };
    let filter = Filter {
        src: None,
        arg: Items { values: argument },
        got: 0,
        made: 0,
        last: no_text(alloc)?,
        saved: true,
    };
    filter.into_values()
}
