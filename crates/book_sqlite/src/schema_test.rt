ghost use Rattle.std.specs.Prelude.{◌≡◌, [], ◌∷◌, IsTrue};
ghost use Rattle.sqlite_value.specs.Keys.{plain};
ghost use Rattle.book_sqlite.specs.RowsSchema.{strict_column, rows_table, rows_index, rows_schema, no_schema};
ghost use Rattle.book_sqlite.specs.RowsSchema.{rows_columns, HasRowsKey, HasNoMore};

use sqlite_items::Items;
use sqlite_schema::schema::{Column, Index, Kind, Schema, Table};
use sqlite_value::keys::{Collation, Order};
use sqlite_value::value::Value;

/// Whether a database has no table, no index and no view.
pub fn is_empty(schema: &Schema) -> bool
    ensures { IsTrue result → schema.now ≡ no_schema }
{
    schema.tables.is_empty() && schema.indexes.is_empty() && schema.views.is_empty()
}

/// Whether a database has the table of rows with its index, as they are made here, and nothing else.
pub fn is_of_rows(schema: &Schema) -> bool
    ensures { IsTrue result → schema.now ≡ rows_schema }
{
    let [table] = schema.tables.as_slice() else {
        return false;
    };
    let [index] = schema.indexes.as_slice() else {
        return false;
    };
    schema.views.is_empty() && is_rows_table(table) && is_rows_index(index)
}

/// Whether it is the table of rows.
fn is_rows_table(table: &Table) -> bool
    ensures { IsTrue result → table.now ≡ rows_table }
{
    table.name.as_slice() == b"bk_rows".as_slice()
        && table.tree == 0
        && are_rows_columns(table.columns.as_slice())
        && has_rows_key(table)
        && has_no_more(table)
}

/// Whether they are the columns of the table of rows.
fn are_rows_columns(columns: &[Column]) -> bool
    ensures { IsTrue result → columns.now ≡ rows_columns }
{
    let [kind, id, body] = columns else {
        return false;
    };
    is_column(kind, b"kind", Kind::Integer, true)
        && is_column(id, b"id", Kind::Integer, true)
        && is_column(body, b"body", Kind::Blob, false)
}

/// Whether the table has the key of the table of rows.
fn has_rows_key(table: &Table) -> bool
    ensures { IsTrue result → HasRowsKey table.now }
{
    table.key.is_none()
        && are_first_two(&table.primary)
        && is_the_one_key(table.uniques.as_slice())
        && is_one_plain_order(table.orders.as_slice())
}

/// Whether these keys are one, of the first two columns.
fn is_the_one_key(uniques: &[Items<usize>]) -> bool
    ensures { IsTrue result → uniques.now ≡ (1 ∷ 2 ∷ []) ∷ [] }
{
    let [unique] = uniques else {
        return false;
    };
    are_first_two(unique)
}

/// Whether these places are those of the first two columns.
fn are_first_two(places: &Items<usize>) -> bool
    ensures { IsTrue result → places.now ≡ 1 ∷ 2 ∷ [] }
{
    places.as_slice() == [1, 2].as_slice()
}

/// Whether these orders are one, of bytes that ascend.
fn is_one_plain_order(orders: &[Order]) -> bool
    ensures { IsTrue result → orders.now ≡ plain ∷ [] }
{
    let [order] = orders else {
        return false;
    };
    order.digits == 0
}

/// Whether the table has no rule beside its keys, and no default that is computed.
fn has_no_more(table: &Table) -> bool
    ensures { IsTrue result → HasNoMore table.now }
{
    table.checks.roots.is_empty()
        && table.references.is_empty()
        && table.computed.is_empty()
        && table.stamps.places.is_empty()
        && table.stamps.terms.roots.is_empty()
        && table.stamps.formats.is_empty()
        && !table.is_counted
}

/// Whether it is the column of this name and type, NOT NULL or not, in a STRICT table.
fn is_column(column: &Column, name: &[u8], kind: Kind, not_null: bool) -> bool
    ensures { IsTrue result → column.now ≡ strict_column name.now kind not_null }
{
    column.name.as_slice() == name
        && column.kind == kind
        && column.is_strict
        && column.not_null == not_null
        && matches!(column.default, Value::Null)
        && column.collation == Collation::Binary
}

/// Whether it is the index that the key of the table of rows has.
fn is_rows_index(index: &Index) -> bool
    ensures { IsTrue result → index.now ≡ rows_index }
{
    index.name.as_slice() == b"sqlite_autoindex_bk_rows_1".as_slice()
        && index.tree == 1
        && index.table == 0
        && index.columns.as_slice() == [1, 2].as_slice()
        && index.order == Order { digits: 0 }
        && index.is_unique
}
