//! The names in replies.

/// Keys.
pub mod keys {
    pub const ASKED: &str = "asked";

    pub const AT: &str = "at";

    pub const BOUND: &str = "bound";

    pub const BYTES: &str = "bytes";

    pub const CHANGE: &str = "change";

    pub const CHANGES: &str = "changes";

    pub const COLUMN: &str = "column";

    pub const CONJUNCT: &str = "conjunct";

    pub const ERROR: &str = "error";

    pub const GIVEN: &str = "given";

    pub const HAVE: &str = "have";

    pub const HIGH: &str = "high";

    pub const LOW: &str = "low";

    pub const NAME: &str = "name";

    pub const NODES: &str = "nodes";

    pub const OBJECTIVE: &str = "objective";

    pub const PACKAGE: &str = "package";

    pub const RECORD: &str = "record";

    pub const ROW: &str = "row";

    pub const ROWS: &str = "rows";

    pub const STATUS: &str = "status";

    pub const TOTAL: &str = "total";

    pub const VERSION: &str = "version";

    pub const WANT: &str = "want";
}

/// What a statement came to.
pub mod statuses {
    pub const BEGUN: &str = "begun";

    pub const CERTIFICATE: &str = "certificate";

    pub const COMMITTED: &str = "committed";

    pub const CREATED: &str = "created";

    pub const DELETED: &str = "deleted";

    pub const FOUND: &str = "found";

    pub const INFEASIBLE: &str = "infeasible";

    pub const INSERTED: &str = "inserted";

    pub const LOADED: &str = "loaded";

    pub const NOT_FOUND: &str = "notfound";

    pub const OPTIMAL: &str = "optimal";

    pub const PARTITIONED: &str = "partitioned";

    pub const QUEUED: &str = "queued";

    pub const REFUSED: &str = "refused";

    pub const ROLLED_BACK: &str = "rolledback";

    pub const UNDECIDED: &str = "undecided";

    pub const UPDATED: &str = "updated";

    pub const VACUUMED: &str = "vacuumed";
}

/// Why a statement is refused.
pub mod errors {
    pub const ARITY: &str = "arity";

    pub const BAD_CELL: &str = "badcell";

    pub const BAD_RECORD: &str = "badrecord";

    pub const BAD_SCALE: &str = "badscale";

    pub const DEEP: &str = "deep";

    pub const DUPLICATE_COLUMN: &str = "duplicatecolumn";

    pub const FACTOR: &str = "factor";

    pub const HEADER: &str = "header";

    pub const IN_TRANSACTION: &str = "intransaction";

    pub const LEX: &str = "lex";

    pub const LIMIT_BUDGET: &str = "limitbudget";

    pub const LIMIT_BYTES: &str = "limitbytes";

    pub const LIMIT_CANDIDATES: &str = "limitcandidates";

    pub const LIMIT_COMMIT: &str = "limitcommit";

    pub const LIMIT_CONJUNCTS: &str = "limitconjuncts";

    pub const LIMIT_PARTITION: &str = "limitpartition";

    pub const LIMIT_REPEAT: &str = "limitrepeat";

    pub const LIMIT_ROWS: &str = "limitrows";

    pub const LIMIT_TABLES: &str = "limittables";

    pub const LIMIT_TERMS: &str = "limitterms";

    pub const LIMIT_VERSIONS: &str = "limitversions";

    pub const LITERAL_RANGE: &str = "literalrange";

    pub const MEMORY: &str = "memory";

    pub const NO_CERTIFICATE: &str = "nocertificate";

    pub const NO_COLUMN: &str = "nocolumn";

    pub const NO_PARTITION: &str = "nopartition";

    pub const NO_TABLE: &str = "notable";

    pub const NOT_BUILT: &str = "notbuilt";

    pub const NOT_IN_TRANSACTION: &str = "notintransaction";

    pub const OUT_OF_RANGE: &str = "outofrange";

    pub const SYNTAX: &str = "syntax";

    pub const TABLE_EXISTS: &str = "tableexists";

    pub const TEXT_TOO_LONG: &str = "texttoolong";

    pub const TOO_FINE: &str = "toofine";

    pub const TOO_LARGE: &str = "toolarge";

    pub const TOO_MANY_COLUMNS: &str = "toomanycolumns";

    pub const UNBOUNDED: &str = "unbounded";

    pub const UNKEPT: &str = "unkept";

    pub const WRONG_KIND: &str = "wrongkind";
}
