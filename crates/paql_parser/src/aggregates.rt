//! Aggregates, and the sums, constraints and goals that they are in. `package_name` is the name
//! of the query's package, and `depth` is how many brackets and NOTs may be open in a condition.
ghost use Rattle.std.specs.Prelude.{◌≡◌, true};
ghost use Rattle.std.specs.Str.{bytes_eq};
ghost use Rattle.formal_grammar.specs.Parse as parse;
ghost use Rattle.paql_grammar.specs.Aggregates as grammar;
ghost use Rattle.paql_grammar.specs.Lexemes.{among};
ghost use Rattle.paql_grammar.specs.ConditionReading as conditions;
ghost use Rattle.paql_grammar.specs.AggregateReading as read;
ghost use Rattle.paql_reader.specs.Sources.{Follows, left};

use formal_grammar::ReadError;
use paql_ast::aggregates::{Agg, Plain, SumItem, Term};
use paql_ast::conditions::ColumnName;
use paql_ast::queries::{Conjunct, Goal};
use paql_lexer::Kind;
use paql_reader::{Source, column, comparison, condition, name, number, sees, signed, take};
use pq_base::Scaled;
use schema_types::Text;
use sqlite_items::Items;
use std::alloc::Global;

fn same_name(name: &[u8], other: &[u8]) -> bool
    ensures { result ≡ bytes_eq name.now other.now }
{
    name == other
}

/// The name that a COUNT keeps: none where it is the package's.
fn counted(package_name: &[u8], name: Text) -> Option<Text>
    ensures { result ≡ grammar.counted package_name.now name }
{
    if same_name(name.as_slice(), package_name) {
        None
    } else {
        Some(name)
    }
}

#[tactic(auto, unfolding(paql_grammar::specs::AggregateReading::all_rows))]
fn all_rows<'a>(source: Source<'a>) -> Result<(Plain, Source<'a>), ReadError>
    ensures { Follows result read.all_rows source.entry }
{
    let rest = take(source, Kind::Star)?;
    Ok((Plain::Count(None), rest))
}

#[tactic(auto, unfolding(paql_grammar::specs::AggregateReading::rows_of))]
fn rows_of<'a>(
    alloc: Global,
    package_name: &[u8],
    source: Source<'a>,
) -> Result<(Plain, Source<'a>), ReadError>
    ensures { Follows result (read.rows_of package_name.now) source.entry }
{
    let (of, rest) = name(alloc, source)?;
    let rest = take(rest, Kind::Dot)?;
    let rest = take(rest, Kind::Star)?;
    Ok((Plain::Count(counted(package_name, of)), rest))
}

#[tactic(auto, unfolding(paql_grammar::specs::AggregateReading::rows))]
fn rows<'a>(
    alloc: Global,
    package_name: &[u8],
    source: Source<'a>,
) -> Result<(Plain, Source<'a>), ReadError>
    ensures { Follows result (read.rows package_name.now) source.entry }
{
    if sees(source, Kind::Star) {
        return all_rows(source);
    }
    rows_of(alloc, package_name, source)
}

#[tactic(auto, unfolding(paql_grammar::specs::AggregateReading::count))]
fn count<'a>(
    alloc: Global,
    package_name: &[u8],
    source: Source<'a>,
) -> Result<(Plain, Source<'a>), ReadError>
    ensures { Follows result (read.count package_name.now) source.entry }
{
    let rest = take(source, Kind::Count)?;
    let rest = take(rest, Kind::LeftParen)?;
    let (counted, rest) = rows(alloc, package_name, rest)?;
    let rest = take(rest, Kind::RightParen)?;
    Ok((counted, rest))
}

#[tactic(auto, unfolding(paql_grammar::specs::AggregateReading::column_sum))]
fn column_sum<'a>(alloc: Global, source: Source<'a>) -> Result<(Plain, Source<'a>), ReadError>
    ensures { Follows result read.column_sum source.entry }
{
    let rest = take(source, Kind::Sum)?;
    let rest = take(rest, Kind::LeftParen)?;
    let (of, rest) = column(alloc, rest)?;
    let rest = take(rest, Kind::RightParen)?;
    Ok((Plain::Sum(of), rest))
}

#[tactic(auto, unfolding(paql_grammar::specs::AggregateReading::plain))]
fn plain<'a>(
    alloc: Global,
    package_name: &[u8],
    source: Source<'a>,
) -> Result<(Plain, Source<'a>), ReadError>
    ensures { Follows result (read.plain package_name.now) source.entry }
{
    if sees(source, Kind::Count) {
        return count(alloc, package_name, source);
    }
    column_sum(alloc, source)
}

#[tactic(auto, unfolding(paql_grammar::specs::AggregateReading::unconditional))]
fn unconditional<'a>(
    alloc: Global,
    package_name: &[u8],
    source: Source<'a>,
) -> Result<(Agg, Source<'a>), ReadError>
    ensures { Follows result (read.unconditional package_name.now) source.entry }
{
    let (plain, rest) = plain(alloc, package_name, source)?;
    Ok((Agg { plain, only: None }, rest))
}

#[tactic(auto, unfolding(paql_grammar::specs::AggregateReading::conditional))]
fn conditional<'a>(
    alloc: Global,
    depth: u32,
    package_name: &[u8],
    source: Source<'a>,
) -> Result<(Agg, Source<'a>), ReadError>
    ensures { Follows result
        (read.conditional package_name.now (conditions.pred depth)) source.entry }
{
    let rest = take(source, Kind::LeftParen)?;
    let rest = take(rest, Kind::Select)?;
    let (plain, rest) = plain(alloc, package_name, rest)?;
    let rest = take(rest, Kind::From)?;
    let (from, rest) = name(alloc, rest)?;
    let rest = take(rest, Kind::Where)?;
    let (filter, rest) = condition(alloc, depth, rest)?;
    let rest = take(rest, Kind::RightParen)?;
    let only = Some((from, filter));
    Ok((Agg { plain, only }, rest))
}

#[tactic(auto, unfolding(paql_grammar::specs::AggregateReading::agg))]
fn agg<'a>(
    alloc: Global,
    depth: u32,
    package_name: &[u8],
    source: Source<'a>,
) -> Result<(Agg, Source<'a>), ReadError>
    ensures { Follows result (read.agg package_name.now (conditions.pred depth)) source.entry }
{
    if sees(source, Kind::LeftParen) {
        return conditional(alloc, depth, package_name, source);
    }
    unconditional(alloc, package_name, source)
}

#[tactic(auto, unfolding(paql_grammar::specs::AggregateReading::factor))]
fn factor<'a>(source: Source<'a>) -> Result<(Scaled, Source<'a>), ReadError>
    ensures { Follows result read.factor source.entry }
{
    let (times, rest) = number(false, source)?;
    let rest = take(rest, Kind::Star)?;
    Ok((times, rest))
}

#[tactic(auto, unfolding(paql_grammar::specs::AggregateReading::optional_factor))]
fn optional_factor<'a>(source: Source<'a>) -> Result<(Option<Scaled>, Source<'a>), ReadError>
    ensures { Follows result read.optional_factor source.entry }
{
    if !sees(source, Kind::Number) {
        return Ok((None, source));
    }
    let (times, rest) = factor(source)?;
    Ok((Some(times), rest))
}

#[tactic(auto, unfolding(paql_grammar::specs::AggregateReading::part))]
fn part<'a>(
    alloc: Global,
    depth: u32,
    package_name: &[u8],
    source: Source<'a>,
) -> Result<(Term, Source<'a>), ReadError>
    ensures { Follows result
        (read.part (read.agg package_name.now (conditions.pred depth))) source.entry }
{
    let (factor, rest) = optional_factor(source)?;
    let (agg, rest) = agg(alloc, depth, package_name, rest)?;
    Ok((Term::Agg { factor, agg }, rest))
}

#[tactic(auto, unfolding(paql_grammar::specs::AggregateReading::multiple))]
fn multiple<'a>(
    alloc: Global,
    depth: u32,
    package_name: &[u8],
    times: Scaled,
    source: Source<'a>,
) -> Result<(Term, Source<'a>), ReadError>
    ensures { Follows result
        (read.multiple (read.agg package_name.now (conditions.pred depth)) times) source.entry }
{
    let rest = take(source, Kind::Star)?;
    let (agg, rest) = agg(alloc, depth, package_name, rest)?;
    let factor = Some(times);
    Ok((Term::Agg { factor, agg }, rest))
}

#[tactic(auto, unfolding(paql_grammar::specs::AggregateReading::from_number))]
fn from_number<'a>(
    alloc: Global,
    depth: u32,
    package_name: &[u8],
    source: Source<'a>,
) -> Result<(Term, Source<'a>), ReadError>
    ensures { Follows result
        (read.from_number (read.agg package_name.now (conditions.pred depth))) source.entry }
{
    let (value, rest) = number(false, source)?;
    if sees(rest, Kind::Star) {
        return multiple(alloc, depth, package_name, value, rest);
    }
    Ok((Term::Number(value), rest))
}

#[tactic(auto, unfolding(paql_grammar::specs::AggregateReading::single))]
fn single<'a>(
    alloc: Global,
    depth: u32,
    package_name: &[u8],
    source: Source<'a>,
) -> Result<(Term, Source<'a>), ReadError>
    ensures { Follows result
        (read.single (read.agg package_name.now (conditions.pred depth))) source.entry }
{
    let (agg, rest) = agg(alloc, depth, package_name, source)?;
    Ok((Term::Agg { factor: None, agg }, rest))
}

#[tactic(auto, unfolding(paql_grammar::specs::AggregateReading::term))]
fn term<'a>(
    alloc: Global,
    depth: u32,
    package_name: &[u8],
    source: Source<'a>,
) -> Result<(Term, Source<'a>), ReadError>
    ensures { Follows result
        (read.term (read.agg package_name.now (conditions.pred depth))) source.entry }
{
    if sees(source, Kind::Number) {
        return from_number(alloc, depth, package_name, source);
    }
    single(alloc, depth, package_name, source)
}

/// A term, or a part where plain numbers are not allowed.
#[tactic(auto, unfolding(paql_grammar::specs::AggregateReading::part))]
fn summand<'a>(
    alloc: Global,
    depth: u32,
    numbers: bool,
    package_name: &[u8],
    source: Source<'a>,
) -> Result<(Term, Source<'a>), ReadError>
    ensures { Follows result
        (read.summand numbers package_name.now (conditions.pred depth)) source.entry }
{
    if numbers {
        return term(alloc, depth, package_name, source);
    }
    part(alloc, depth, package_name, source)
}

#[tactic(auto, unfolding(paql_grammar::specs::AggregateReading::leading_minus))]
fn leading_minus<'a>(source: Source<'a>) -> Result<(bool, Source<'a>), ReadError>
    ensures { Follows result read.leading_minus source.entry }
{
    if !sees(source, Kind::Minus) {
        return Ok((false, source));
    }
    let rest = take(source, Kind::Minus)?;
    Ok((true, rest))
}

#[tactic(auto, unfolding(paql_grammar::specs::AggregateReading::first_item))]
fn first_item<'a>(
    alloc: Global,
    depth: u32,
    numbers: bool,
    package_name: &[u8],
    source: Source<'a>,
) -> Result<(SumItem, Source<'a>), ReadError>
    ensures { Follows result
        (read.first_item (read.summand numbers package_name.now (conditions.pred depth)))
        source.entry }
{
    let (minus, rest) = leading_minus(source)?;
    let (term, rest) = summand(alloc, depth, numbers, package_name, rest)?;
    Ok((SumItem { minus, term }, rest))
}

#[tactic(auto, unfolding(paql_grammar::specs::AggregateReading::plus))]
fn plus<'a>(source: Source<'a>) -> Result<(bool, Source<'a>), ReadError>
    ensures { Follows result read.plus source.entry }
{
    let rest = take(source, Kind::Plus)?;
    Ok((false, rest))
}

#[tactic(auto, unfolding(paql_grammar::specs::AggregateReading::minus))]
fn minus<'a>(source: Source<'a>) -> Result<(bool, Source<'a>), ReadError>
    ensures { Follows result read.minus source.entry }
{
    let rest = take(source, Kind::Minus)?;
    Ok((true, rest))
}

/// Whether the sign between two items is a minus.
#[tactic(auto, unfolding(paql_grammar::specs::AggregateReading::sign))]
fn sign<'a>(source: Source<'a>) -> Result<(bool, Source<'a>), ReadError>
    ensures { Follows result read.sign source.entry }
{
    if sees(source, Kind::Plus) {
        return plus(source);
    }
    minus(source)
}

#[tactic(auto, unfolding(paql_grammar::specs::AggregateReading::next_item))]
fn next_item<'a>(
    alloc: Global,
    depth: u32,
    numbers: bool,
    package_name: &[u8],
    source: Source<'a>,
) -> Result<(SumItem, Source<'a>), ReadError>
    ensures { Follows result
        (read.next_item (read.summand numbers package_name.now (conditions.pred depth)))
        source.entry }
{
    let (minus, rest) = sign(source)?;
    let (term, rest) = summand(alloc, depth, numbers, package_name, rest)?;
    Ok((SumItem { minus, term }, rest))
}

fn sees_sign(source: Source<'_>) -> bool
    ensures { result ≡ parse.sees (among grammar.sign_kinds) (left source.entry) }
{
    match source.tokens {
        [first, ..] => first.kind == Kind::Plus || first.kind == Kind::Minus,
        [] => false,
    }
}

/// The first item, and those that follow.
fn more_items<'a>(
    alloc: Global,
    depth: u32,
    numbers: bool,
    package_name: &[u8],
    first: SumItem,
    source: Source<'a>,
) -> Result<(Items<SumItem>, Source<'a>), ReadError>
    ensures { Follows result
        (read.more_items first (read.summand numbers package_name.now (conditions.pred depth)))
        source.entry }
{
    let mut rest = source;
    let mut items = Items::new(alloc);
    items.push(first)?;
    'items: while sees_sign(rest) {
        let (next, after) = next_item(alloc, depth, numbers, package_name, rest)?;
        items.push(next)?;
        rest = after;
    }
    Ok((items, rest))
}

/// The items of a sum, of which there is at least one.
#[tactic(auto, unfolding(paql_grammar::specs::AggregateReading::sum))]
fn sum<'a>(
    alloc: Global,
    depth: u32,
    numbers: bool,
    package_name: &[u8],
    source: Source<'a>,
) -> Result<(Items<SumItem>, Source<'a>), ReadError>
    ensures { Follows result
        (read.sum (read.summand numbers package_name.now (conditions.pred depth))) source.entry }
{
    let (first, rest) = first_item(alloc, depth, numbers, package_name, source)?;
    more_items(alloc, depth, numbers, package_name, first, rest)
}

/// The two ends of a BETWEEN.
#[tactic(auto, unfolding(paql_grammar::specs::AggregateReading::ends))]
fn ends<'a>(source: Source<'a>) -> Result<((Scaled, Scaled), Source<'a>), ReadError>
    ensures { Follows result read.ends source.entry }
{
    let rest = take(source, Kind::Between)?;
    let (low, rest) = signed(rest)?;
    let rest = take(rest, Kind::And)?;
    let (high, rest) = signed(rest)?;
    Ok(((low, high), rest))
}

#[tactic(auto, unfolding(paql_grammar::specs::AggregateReading::compared))]
fn compared<'a>(
    alloc: Global,
    depth: u32,
    package_name: &[u8],
    sum_before: Items<SumItem>,
    source: Source<'a>,
) -> Result<(Conjunct, Source<'a>), ReadError>
    ensures { Follows result
        (read.compared sum_before
        (read.sum (read.summand true package_name.now (conditions.pred depth)))) source.entry }
{
    let (op, rest) = comparison(source)?;
    let (right, rest) = sum(alloc, depth, true, package_name, rest)?;
    let left = sum_before;
    Ok((Conjunct::Compare { left, op, right }, rest))
}

#[tactic(auto, unfolding(paql_grammar::specs::AggregateReading::between))]
fn between<'a>(sum: Items<SumItem>, source: Source<'a>) -> Result<(Conjunct, Source<'a>), ReadError>
    ensures { Follows result (read.between sum) source.entry }
{
    let ((low, high), rest) = ends(source)?;
    Ok((Conjunct::Between { sum, low, high }, rest))
}

#[tactic(auto, unfolding(paql_grammar::specs::AggregateReading::on_sums))]
fn on_sums<'a>(
    alloc: Global,
    depth: u32,
    package_name: &[u8],
    source: Source<'a>,
) -> Result<(Conjunct, Source<'a>), ReadError>
    ensures { Follows result
        (read.on_sums (read.sum (read.summand true package_name.now (conditions.pred depth))))
        source.entry }
{
    let (left, rest) = sum(alloc, depth, true, package_name, source)?;
    if sees(rest, Kind::Between) {
        return between(left, rest);
    }
    compared(alloc, depth, package_name, left, rest)
}

#[tactic(auto, unfolding(paql_grammar::specs::AggregateReading::average_compared))]
fn average_compared<'a>(
    column: ColumnName,
    source: Source<'a>,
) -> Result<(Conjunct, Source<'a>), ReadError>
    ensures { Follows result (read.average_compared column) source.entry }
{
    let (op, rest) = comparison(source)?;
    let (limit, rest) = signed(rest)?;
    Ok((Conjunct::Avg { column, op, limit }, rest))
}

#[tactic(auto, unfolding(paql_grammar::specs::AggregateReading::average_between))]
fn average_between<'a>(
    column: ColumnName,
    source: Source<'a>,
) -> Result<(Conjunct, Source<'a>), ReadError>
    ensures { Follows result (read.average_between column) source.entry }
{
    let ((low, high), rest) = ends(source)?;
    Ok((Conjunct::AvgBetween { column, low, high }, rest))
}

#[tactic(auto, unfolding(paql_grammar::specs::AggregateReading::on_average))]
fn on_average<'a>(alloc: Global, source: Source<'a>) -> Result<(Conjunct, Source<'a>), ReadError>
    ensures { Follows result read.on_average source.entry }
{
    let rest = take(source, Kind::Avg)?;
    let rest = take(rest, Kind::LeftParen)?;
    let (of, rest) = column(alloc, rest)?;
    let rest = take(rest, Kind::RightParen)?;
    if sees(rest, Kind::Between) {
        return average_between(of, rest);
    }
    average_compared(of, rest)
}

/// A constraint of SUCH THAT.
#[tactic(auto, unfolding(paql_grammar::specs::AggregateReading::conj))]
pub(crate) fn conj<'a>(
    alloc: Global,
    depth: u32,
    package_name: &[u8],
    source: Source<'a>,
) -> Result<(Conjunct, Source<'a>), ReadError>
    ensures { Follows result
        (read.constraint package_name.now (conditions.pred depth)) source.entry }
{
    if sees(source, Kind::Avg) {
        return on_average(alloc, source);
    }
    on_sums(alloc, depth, package_name, source)
}

#[tactic(auto, unfolding(paql_grammar::specs::AggregateReading::minimize))]
fn minimize<'a>(source: Source<'a>) -> Result<(bool, Source<'a>), ReadError>
    ensures { Follows result read.minimize source.entry }
{
    let rest = take(source, Kind::Minimize)?;
    Ok((false, rest))
}

#[tactic(auto, unfolding(paql_grammar::specs::AggregateReading::maximize))]
fn maximize<'a>(source: Source<'a>) -> Result<(bool, Source<'a>), ReadError>
    ensures { Follows result read.maximize source.entry }
{
    let rest = take(source, Kind::Maximize)?;
    Ok((true, rest))
}

/// Whether the word of a goal is MAXIMIZE.
#[tactic(auto, unfolding(paql_grammar::specs::AggregateReading::sense))]
fn sense<'a>(source: Source<'a>) -> Result<(bool, Source<'a>), ReadError>
    ensures { Follows result read.sense source.entry }
{
    if sees(source, Kind::Minimize) {
        return minimize(source);
    }
    maximize(source)
}

/// The goal of a query.
#[tactic(auto, unfolding(paql_grammar::specs::AggregateReading::goal))]
pub(crate) fn goal<'a>(
    alloc: Global,
    depth: u32,
    package_name: &[u8],
    source: Source<'a>,
) -> Result<(Goal, Source<'a>), ReadError>
    ensures { Follows result
        (read.objective package_name.now (conditions.pred depth)) source.entry }
{
    let (maximize, rest) = sense(source)?;
    let (parts, rest) = sum(alloc, depth, false, package_name, rest)?;
    Ok((Goal { maximize, parts }, rest))
}
