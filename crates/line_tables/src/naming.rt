//! The names of the tables and of their columns. SQL ignores their case.

ghost use Rattle.std.specs.Prelude.{◌≡◌, ◌&&◌};
ghost use Rattle.std.specs.List.{list_any, list_all};
ghost use Rattle.sqlite.specs.Held.{state};
ghost use Rattle.line_tables.specs.Names.{has_name, is_version, is_accepted, has_column, has_setup, has_floor, has_found, has_state};
ghost use Rattle.sqlite_schema.specs.Names.{same_name};

use desk_types::Rules;
use sqlite::{Alter, Connection};
use sqlite_schema::names::same_name;
use sqlite_schema::schema::Table;

/// Returns whether some table has one of our names.
pub fn has_our_name<S: Alter>(conn: &Connection<S>) -> bool
    ensures { result ≡ list_any has_name (state S.Store conn.now).now.schema.tables }
{
    let tables = conn.schema().tables.as_slice();
    tables.iter().any(|table| has_name(table))
}

/// Returns whether a table `version` exists with its columns.
pub fn has_version<S: Alter>(conn: &Connection<S>) -> bool
    ensures { result ≡ list_any is_version (state S.Store conn.now).now.schema.tables }
{
    let tables = conn.schema().tables.as_slice();
    has_table(tables, "version", &["one", "number", "greatest"])
}

/// Returns whether a table `accepted` exists with its columns.
pub fn has_accepted<S: Alter>(conn: &Connection<S>) -> bool
    ensures { result ≡ list_any is_accepted (state S.Store conn.now).now.schema.tables }
{
    has_table(
        conn.schema().tables.as_slice(),
        "accepted",
        &[
            "number",
            "uid",
            "source",
            "own",
            "effective",
            "command",
            "detail",
        ],
    )
}

/// Returns whether all our other tables exist with their columns. Rules One have no table of found pieces.
pub fn has_state<S: Alter>(conn: &Connection<S>, rules: Rules) -> bool
    ensures { result ≡ has_state rules (state S.Store conn.now).now.schema.tables }
{
    let tables = conn.schema().tables.as_slice();
    has_setup(tables) && has_floor(tables) && has_found(tables, rules)
}

fn has_name(table: &Table) -> bool
    ensures { result ≡ has_name table.now }
{
    is_one_of(
        table.name.as_slice(),
        &[
            "version",
            "accepted",
            "part",
            "alternate",
            "sheet_row",
            "selected",
            "reel",
            "mount",
            "board",
            "placement",
            "found",
        ],
    )
}

fn is_one_of(name: &[u8], names: &[&str]) -> bool
    ensures { result ≡ list_any (λ one. same_name name.now one.now) names.now }
{
    names.iter().any(|one| same_name(name, one.as_bytes()))
}

fn has_column(table: &Table, name: &str) -> bool
    ensures { result ≡ has_column table.now name.now }
{
    table.columns.as_slice().iter().any(|column| same_name(column.name.as_slice(), name.as_bytes()))
}

fn has_setup(tables: &[Table]) -> bool
    ensures { result ≡ has_setup tables.now }
{
    has_table(tables, "part", &["part"])
        && has_table(tables, "alternate", &["part", "alternate"])
        && has_table(
            tables,
            "sheet_row",
            &["product", "machine", "place", "slot", "part", "designators"],
        )
        && has_table(tables, "selected", &["machine", "product"])
}

fn has_floor(tables: &[Table]) -> bool
    ensures { result ≡ has_floor tables.now }
{
    has_table(
        tables,
        "reel",
        &[
            "reel",
            "part",
            "lot",
            "level",
            "label",
            "received",
            "placed",
            "scrapped",
            "remaining",
            "used",
            "open_since",
            "baked",
        ],
    ) && has_table(tables, "mount", &["since", "machine", "slot", "reel"])
        && has_table(tables, "board", &["board", "product", "machine"])
        && has_table(
            tables,
            "placement",
            &[
                "number",
                "place",
                "board",
                "designator",
                "machine",
                "slot",
                "reel",
                "overdue",
            ],
        )
}

fn has_found(tables: &[Table], rules: Rules) -> bool
    ensures { result ≡ has_found rules tables.now }
{
    match rules {
        Rules::One => !has_table(tables, "found", &[]),
        Rules::Two => has_table(tables, "found", &["reel", "pieces"]),
    }
}

fn has_table(tables: &[Table], name: &str, columns: &[&str]) -> bool
    ensures { result ≡ list_any
        (λ table. same_name table.name name.now && list_all
        (λ column. has_column table column.now) columns.now) tables.now }
{
    tables.iter().any(|table| is_named(table, name, columns))
}

fn is_named(table: &Table, name: &str, columns: &[&str]) -> bool
    ensures { result ≡ (same_name table.now.name name.now && list_all
        (λ column. has_column table.now column.now) columns.now) }
{
    same_name(table.name.as_slice(), name.as_bytes()) && has_columns(table, columns)
}

fn has_columns(table: &Table, columns: &[&str]) -> bool
    ensures { result ≡ list_all (λ column. has_column table.now column.now) columns.now }
{
    columns.iter().all(|column| has_column(table, column))
}
