// The role records of a state beside those of a row.
use editor::{Editor, role_number, role_records};
use roles::Role;
use vector_rows::{field, number};

// Whether the text says the record: transitive byte, parents, ancestors, 1 if simple.
fn record_is(r: &Role, text: &[u8]) -> bool {
    number(field(text, 0, b',')) == usize::from(r.transitive)
        && number(field(text, 1, b',')) == usize::from(r.parents)
        && number(field(text, 2, b',')) == usize::from(r.ancestors)
        && (number(field(text, 3, b',')) == 1) == r.simple
}

// Whether the text says the records, and no more.
fn table_is(table: &[Role], text: &[u8]) -> bool {
    let all = table
        .iter()
        .enumerate()
        .all(|(i, r)| record_is(r, field(text, i, b';')));
    all && field(text, table.len(), b';').is_empty()
}

// Whether the text says the records of the roles that are put in: a dash if there are none.
pub(crate) fn records_are(s: Editor, text: &[u8]) -> bool {
    let n = usize::from(role_number(s));
    if n == 0 {
        return text == b"-".as_slice();
    }
    let table = role_records(s);
    n <= table.len() && table_is(&table[..n], text)
}
