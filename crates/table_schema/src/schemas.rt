//! The schemas of tables by the tables' names.
ghost use Rattle.std.specs.Prelude.{◌≡◌};
ghost use Rattle.std.specs.Option.{option_copied};
ghost use Rattle.table_schema.specs.Named.{schema_of};

use crate::schema::Schema;
use schema_types::Text;
use sqlite_items::Items;

/// Tables, each by its name and its schema.
pub type Schemas = Items<(Text, Schema)>;

/// The schema of the first table of a name.
pub fn schema_named<'a>(schemas: &'a Schemas, name: &[u8]) -> Option<&'a Schema>
    ensures { option_copied result ≡ schema_of name.now schemas.now }
{
    for table in schemas.as_slice() {
        if table.0.as_slice() == name {
            return Some(&table.1);
        }
    }
    None
}
