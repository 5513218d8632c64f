//! Why a statement is refused, and the reply that says so.
ghost use Rattle.std.specs.Prelude.{◌≡◌, [], ◌∷◌, codes, IfOk, string_bytes};
ghost use Rattle.session_proto.specs.Replies.{text, put, reply_text};
ghost use Rattle.session_proto.specs.Refusals.{refusal_of, memory, not_built, refused, in_change, given};
ghost use Rattle.session_proto.specs.Causes.{cause, text_cause, session_cause, bind_cause, query_cause, change_cause, cell_cause, limit_cause, load_cause};

use crate::names::{errors, keys, statuses};
use crate::replies::{Field, Reply};
use std::alloc::{AllocError, Global};

/// Why a text is no statement.
#[derive(Clone, Copy, Debug, PartialEq, Eq)]
pub enum TextFault {
    /// No token begins there.
    Lex,
    /// No statement goes on so.
    Syntax,
    /// The brackets nest too deep.
    Deep,
}

/// Which statement the session isn't ready for.
#[derive(Clone, Copy, Debug, PartialEq, Eq)]
pub enum SessionFault {
    /// BEGIN or LOAD in an open transaction.
    InTransaction,
    /// COMMIT or ROLLBACK without one.
    NotInTransaction,
    /// CERTIFICATE before a query was answered.
    NoCertificate,
    /// A statement that isn't performed yet.
    NotBuilt,
}

/// What doesn't fit in a query, and in a change too.
#[derive(Debug, Drop)]
pub enum BindFault {
    /// A version that isn't kept: those from `low` to `high` are.
    Unkept { asked: u64, high: u64, low: u64 },
    /// The version has no table of this name.
    NoTable(String),
    /// The table has no column of this name, printed as it was written, without quotes.
    NoColumn(String),
    /// The column is a text although a number is asked for, or the other way round.
    WrongKind(String),
    /// A number has more than six places.
    TooFine,
    /// A number is over 10^12 in units of its own scale.
    LiteralRange,
}

/// What doesn't fit in a query alone. The goal is conjunct 0.
#[derive(Debug, Drop)]
pub enum QueryFault {
    /// A factor isn't whole, or it is over 1,000,000.
    Factor,
    LimitBudget(u64),
    LimitConjuncts(u64),
    LimitTerms { conjunct: u64, given: u64 },
    /// Nothing bounds how many rows a package has.
    Unbounded,
    LimitRepeat(u64),
    LimitCandidates(u64),
    /// A sum could be too large; the total is printed.
    TooLarge { conjunct: u64, total: String },
    /// SKETCHREFINE of a table that isn't partitioned.
    NoPartition(String),
}

/// Why a value doesn't fit its column.
#[derive(Clone, Copy, Debug, PartialEq, Eq)]
pub enum CellFault {
    /// It is of another kind, or too fine.
    BadCell,
    /// It is over 10^12 units.
    OutOfRange,
    /// It is a text of over 255 bytes.
    TextTooLong,
}

/// What doesn't fit in a change alone.
#[derive(Debug, Drop)]
pub enum ChangeFault {
    TableExists(String),
    DuplicateColumn(String),
    /// The column's scale isn't from 1 to 6.
    BadScale(String),
    TooManyColumns(u64),
    LimitPartition(u64),
    /// A tuple has another number of values than the table has columns. Rows count from 1.
    Arity {
        have: u64,
        row: u64,
        want: u64,
    },
    /// A value in a column and a row; SET's are in row 0.
    Cell {
        fault: CellFault,
        column: String,
        row: u64,
    },
}

/// The limits of a commit.
#[derive(Clone, Copy, Debug, PartialEq, Eq)]
pub enum CommitLimit {
    Tables,
    /// Entries that some kept version shows.
    Rows,
    /// Rows that one commit inserts.
    Inserted,
    Versions,
}

/// What doesn't fit in the body of LOAD. Records count from 1.
#[derive(Debug, Drop)]
pub enum LoadFault {
    LimitBytes,
    Header,
    BadRecord(u64),
    /// A value of the record of this number.
    BadCell { column: String, number: u64 },
}

/// Why a statement is refused.
#[derive(Debug, Drop)]
pub enum Refusal {
    /// The text is no statement, from this byte on, counted from 0.
    Text(TextFault, u64),
    Session(SessionFault),
    /// With the number of the change, from 1, inside a commit.
    Bind(Option<u64>, BindFault),
    Query(QueryFault),
    /// A change, by its number from 1.
    Change(u64, ChangeFault),
    /// A commit would reach this number.
    Limit(CommitLimit, u64),
    Load(LoadFault),
    /// Memory was out.
    Memory,
}

/// The reply that refuses a statement.
pub fn refusal_reply(alloc: Global, refusal: Refusal) -> Result<Reply, AllocError>
    ensures { IfOk result (λ reply. reply ≡ refusal_of (cause refusal)) }
{
    match refusal {
        Refusal::Text(fault, at) => refuse_text(alloc, fault, at),
        Refusal::Session(fault) => refuse_in_session(alloc, fault),
        Refusal::Bind(change, fault) => refuse_binding(alloc, change, fault),
        Refusal::Query(fault) => refuse_query(alloc, fault),
        Refusal::Change(change, fault) => refuse_change(alloc, change, fault),
        Refusal::Limit(limit, number) => refuse_commit(alloc, limit, number),
        Refusal::Load(fault) => refuse_load(alloc, fault),
        Refusal::Memory => Reply::new(alloc).refused(alloc, errors::MEMORY),
    }
}

fn refuse_text(alloc: Global, fault: TextFault, at: u64) -> Result<Reply, AllocError>
    ensures { IfOk result (λ reply. reply ≡ refusal_of (text_cause fault at)) }
{
    let keys = Reply::new(alloc).with_number(alloc, keys::AT, at)?;
    match fault {
        TextFault::Lex => keys.refused(alloc, errors::LEX),
        TextFault::Syntax => keys.refused(alloc, errors::SYNTAX),
        TextFault::Deep => keys.refused(alloc, errors::DEEP),
    }
}

fn refuse_in_session(alloc: Global, fault: SessionFault) -> Result<Reply, AllocError>
    ensures { IfOk result (λ reply. reply ≡ refusal_of (session_cause fault)) }
{
    let keys = Reply::new(alloc);
    match fault {
        SessionFault::InTransaction => keys.refused(alloc, errors::IN_TRANSACTION),
        SessionFault::NotInTransaction => keys.refused(alloc, errors::NOT_IN_TRANSACTION),
        SessionFault::NoCertificate => keys.refused(alloc, errors::NO_CERTIFICATE),
        SessionFault::NotBuilt => keys.refused(alloc, errors::NOT_BUILT),
    }
}

fn refuse_binding(alloc: Global, change: Option<u64>, fault: BindFault) -> Result<Reply, AllocError>
    ensures { IfOk result (λ reply. reply ≡ refusal_of (bind_cause change fault)) }
{
    let keys = Reply::new(alloc);
    match fault {
        BindFault::Unkept { asked, high, low } => {
            let keys = keys.with_number(alloc, keys::ASKED, asked)?;
            let keys = keys.with_number(alloc, keys::HIGH, high)?;
            let keys = keys.with_number(alloc, keys::LOW, low)?;
            keys.refused_in(alloc, change, errors::UNKEPT)
        }
        BindFault::NoTable(name) => {
            keys.with_name(alloc, name)?
                .refused_in(alloc, change, errors::NO_TABLE)
        }
        BindFault::NoColumn(name) => {
            keys.with_name(alloc, name)?
                .refused_in(alloc, change, errors::NO_COLUMN)
        }
        BindFault::WrongKind(name) => {
            keys.with_name(alloc, name)?
                .refused_in(alloc, change, errors::WRONG_KIND)
        }
        BindFault::TooFine => keys.refused_in(alloc, change, errors::TOO_FINE),
        BindFault::LiteralRange => keys.refused_in(alloc, change, errors::LITERAL_RANGE),
    }
}

fn refuse_query(alloc: Global, fault: QueryFault) -> Result<Reply, AllocError>
    ensures { IfOk result (λ reply. reply ≡ refusal_of (query_cause fault)) }
{
    let keys = Reply::new(alloc);
    match fault {
        QueryFault::Factor => keys.refused(alloc, errors::FACTOR),
        QueryFault::LimitBudget(given) => refuse_given(alloc, given, errors::LIMIT_BUDGET),
        QueryFault::LimitConjuncts(given) => refuse_given(alloc, given, errors::LIMIT_CONJUNCTS),
        QueryFault::LimitTerms { conjunct, given } => {
            let keys = keys.with_number(alloc, keys::CONJUNCT, conjunct)?;
            let keys = keys.with_number(alloc, keys::GIVEN, given)?;
            keys.refused(alloc, errors::LIMIT_TERMS)
        }
        QueryFault::Unbounded => keys.refused(alloc, errors::UNBOUNDED),
        QueryFault::LimitRepeat(given) => refuse_given(alloc, given, errors::LIMIT_REPEAT),
        QueryFault::LimitCandidates(given) => refuse_given(alloc, given, errors::LIMIT_CANDIDATES),
        QueryFault::TooLarge { conjunct, total } => {
            let keys = keys.with_number(alloc, keys::CONJUNCT, conjunct)?;
            let keys = keys.with(alloc, keys::TOTAL, Field::Text(total))?;
            keys.refused(alloc, errors::TOO_LARGE)
        }
        QueryFault::NoPartition(name) => {
            keys.with_name(alloc, name)?
                .refused(alloc, errors::NO_PARTITION)
        }
    }
}

fn refuse_change(alloc: Global, change: u64, fault: ChangeFault) -> Result<Reply, AllocError>
    ensures { IfOk result (λ reply. reply ≡ refusal_of (change_cause change fault)) }
{
    let keys = Reply::new(alloc).with_number(alloc, keys::CHANGE, change)?;
    match fault {
        ChangeFault::TableExists(name) => {
            keys.with_name(alloc, name)?
                .refused(alloc, errors::TABLE_EXISTS)
        }
        ChangeFault::DuplicateColumn(name) => {
            keys.with_name(alloc, name)?
                .refused(alloc, errors::DUPLICATE_COLUMN)
        }
        ChangeFault::BadScale(name) => {
            keys.with_name(alloc, name)?
                .refused(alloc, errors::BAD_SCALE)
        }
        ChangeFault::TooManyColumns(given) => {
            let keys = keys.with_number(alloc, keys::GIVEN, given)?;
            keys.refused(alloc, errors::TOO_MANY_COLUMNS)
        }
        ChangeFault::LimitPartition(given) => {
            let keys = keys.with_number(alloc, keys::GIVEN, given)?;
            keys.refused(alloc, errors::LIMIT_PARTITION)
        }
        ChangeFault::Arity { have, row, want } => {
            let keys = keys.with_number(alloc, keys::HAVE, have)?;
            let keys = keys.with_number(alloc, keys::ROW, row)?;
            let keys = keys.with_number(alloc, keys::WANT, want)?;
            keys.refused(alloc, errors::ARITY)
        }
        ChangeFault::Cell { fault, column, row } => {
            refuse_cell(alloc, change, fault, column, row)
        }
    }
}

fn refuse_cell(
    alloc: Global,
    change: u64,
    fault: CellFault,
    column: String,
    row: u64,
) -> Result<Reply, AllocError>
    ensures { IfOk result (λ reply.
        reply ≡ refusal_of (cell_cause fault change (string_bytes column) row)) }
{
    let keys = Reply::new(alloc).with_number(alloc, keys::CHANGE, change)?;
    let keys = keys.with(alloc, keys::COLUMN, Field::Text(column))?;
    let keys = keys.with_number(alloc, keys::ROW, row)?;
    match fault {
        CellFault::BadCell => keys.refused(alloc, errors::BAD_CELL),
        CellFault::OutOfRange => keys.refused(alloc, errors::OUT_OF_RANGE),
        CellFault::TextTooLong => keys.refused(alloc, errors::TEXT_TOO_LONG),
    }
}

fn refuse_commit(alloc: Global, limit: CommitLimit, number: u64) -> Result<Reply, AllocError>
    ensures { IfOk result (λ reply. reply ≡ refusal_of (limit_cause limit number)) }
{
    match limit {
        CommitLimit::Tables => refuse_given(alloc, number, errors::LIMIT_TABLES),
        CommitLimit::Rows => refuse_given(alloc, number, errors::LIMIT_ROWS),
        CommitLimit::Inserted => refuse_given(alloc, number, errors::LIMIT_COMMIT),
        CommitLimit::Versions => refuse_given(alloc, number, errors::LIMIT_VERSIONS),
    }
}

fn refuse_load(alloc: Global, fault: LoadFault) -> Result<Reply, AllocError>
    ensures { IfOk result (λ reply. reply ≡ refusal_of (load_cause fault)) }
{
    let keys = Reply::new(alloc);
    match fault {
        LoadFault::LimitBytes => keys.refused(alloc, errors::LIMIT_BYTES),
        LoadFault::Header => keys.refused(alloc, errors::HEADER),
        LoadFault::BadRecord(number) => {
            let keys = keys.with_number(alloc, keys::RECORD, number)?;
            keys.refused(alloc, errors::BAD_RECORD)
        }
        LoadFault::BadCell { column, number } => {
            let keys = keys.with(alloc, keys::COLUMN, Field::Text(column))?;
            let keys = keys.with_number(alloc, keys::RECORD, number)?;
            keys.refused(alloc, errors::BAD_CELL)
        }
    }
}

// A refusal that says which number was given.
fn refuse_given(alloc: Global, number: u64, error: &str) -> Result<Reply, AllocError>
    ensures { IfOk result (λ reply. reply ≡ refused error.now (given number ∷ [])) }
{
    let keys = Reply::new(alloc).with_number(alloc, keys::GIVEN, number)?;
    keys.refused(alloc, error)
}

impl Reply {
    // These keys, with `error` and `status` among them.
    fn refused(self, alloc: Global, error: &str) -> Result<Reply, AllocError>
        ensures { IfOk result (λ reply. reply ≡ record {
          members = (refused error.now self.members).members;
          tail = self.tail;
        }) }
    {
        let keys = self.with_text(alloc, keys::ERROR, error)?;
        keys.with_text(alloc, keys::STATUS, statuses::REFUSED)
    }

    // The same, with the number of the change too, if there is one.
    fn refused_in(
        self,
        alloc: Global,
        change: Option<u64>,
        error: &str,
    ) -> Result<Reply, AllocError>
        ensures { IfOk result (λ reply. reply ≡ record {
          members = (refused error.now (in_change change self.members)).members;
          tail = self.tail;
        }) }
    {
        match change {
            None => self.refused(alloc, error),
            Some(change) => {
                let keys = self.with_number(alloc, keys::CHANGE, change)?;
                keys.refused(alloc, error)
            }
        }
    }

    fn with_name(self, alloc: Global, name: String) -> Result<Reply, AllocError>
        ensures { IfOk result (λ reply. reply ≡ record {
          members = put (codes "name") (text (string_bytes name)) self.members;
          tail = self.tail;
        }) }
    {
        self.with(alloc, keys::NAME, Field::Text(name))
    }
}

/// The line that refuses a statement when memory is out. It takes none.
pub fn memory_line() -> &'static [u8]
    ensures { result.now ≡ reply_text (refusal_of memory) }
{
    b"{\"error\":\"memory\",\"status\":\"refused\"}\n"
}

/// The line that refuses a statement that isn't performed yet. It takes no memory.
pub fn not_built_line() -> &'static [u8]
    ensures { result.now ≡ reply_text (refusal_of not_built) }
{
    b"{\"error\":\"notbuilt\",\"status\":\"refused\"}\n"
}
