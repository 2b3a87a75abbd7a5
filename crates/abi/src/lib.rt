// The boundary: what C, and whoever calls as C does, links. include/pktfmt.h declares these functions; its structs are arrays of numbers here.
// Answers go to arrays that are lent for them. A call that is refused leaves zeros there, and tells the refusal in three numbers.
#![tactic(auto)]

ghost use Rattle.std.specs.Prelude.{◌≡◌, true, false, length};
ghost use Rattle.layout.specs.Access.{number as a_number, bytes as some_bytes, write};
ghost use Rattle.locator.specs.Locator.{reach_at, write_check_at, read_at, apply_at};
ghost use Rattle.definition.specs.Definition.{definition_check, defined_header};
ghost use Rattle.template.specs.Template.{template_check};
ghost use Rattle.access.specs.Access.{locator_in, locator_of, sheet_reach, sheet_read, sheet_write_check, sheet_apply};
ghost use Rattle.abi.specs.Told.{zeros, Answered, told_or, Told, Found};
ghost use Rattle.abi.specs.Numbers.{version, header_numbers, template_after, locator_from, field_numbers, no_fields, field_rows, index_named, value_numbers, span_numbers, no_lengths, length_rows, no_conds, cond_rows, forward_by, back_by};
ghost use Rattle.abi.specs.Listed.{ListedFront};

use definition::Definition;

mod conditions;
mod lengths;
mod locators;
mod records;
mod told;

// Room for the text of every sheet.
const TEXT: usize = 40000;

// The version 0.2.0, its three numbers in one.
#[unsafe(no_mangle)]
pub extern "C" fn pktfmt_version() -> u64
    ensures { result ≡ version }
{
    2000
}

// ---- by the sheet

// How many bytes and fields the header of a definition has, and how many conditions there are.
fn header_numbers(d: &Definition<'_>) -> [u64; 3]
    ensures { result ≡ header_numbers d.now.sheet.now d.now.header }
{
    let conds = sheet::block_counts(d.sheet).conds;
    [d.header.len.0, d.header.fields as u64, conds as u64]
}

// Steps 1 to 5: the header.
#[unsafe(no_mangle)]
pub extern "C" fn pktfmt_check(sheet: &[u8], header: &mut [u64; 3], refusal: &mut [u64; 3]) -> bool
    ensures { Told (zeros 3) (header_numbers sheet.now) (defined_header sheet.now) header.new refusal.old refusal.new result }
{
    match Definition::new(sheet) {
        Ok(d) => told::tell(header, refusal, Ok(header_numbers(&d))),
        Err(reason) => told::tell(header, refusal, Err(reason)),
    }
}

// The record of field i, or access 1.
#[unsafe(no_mangle)]
pub extern "C" fn pktfmt_field_by_index(
    sheet: &[u8],
    i: usize,
    field: &mut [u64; 14],
    refusal: &mut [u64; 3],
) -> bool
    ensures { Told (zeros 14) (field_numbers sheet.now) (locator_in sheet.now i) field.new refusal.old refusal.new result }
{
    told::tell(field, refusal, records::record_by_index(sheet, i))
}

// The record of the field with a name, or access 1.
#[unsafe(no_mangle)]
pub extern "C" fn pktfmt_field_by_name(
    sheet: &[u8],
    name: &[u8],
    field: &mut [u64; 14],
    refusal: &mut [u64; 3],
) -> bool
    ensures { Told (zeros 14) (field_numbers sheet.now) (locator_in sheet.now (index_named sheet.now name.now)) field.new refusal.old refusal.new result }
{
    pktfmt_field_by_index(sheet, records::index_named(sheet, name), field, refusal)
}

// The header, and the records of all fields.
#[unsafe(no_mangle)]
pub extern "C" fn pktfmt_fields(
    sheet: &[u8],
    header: &mut [u64; 3],
    fields: &mut [[u64; 14]; 64],
    refusal: &mut [u64; 3],
) -> bool
    ensures told { Told (zeros 3) (header_numbers sheet.now) (defined_header sheet.now) header.new refusal.old refusal.new result }
    ensures fields_after { fields.new ≡ told_or no_fields (λ _. field_rows sheet.now) (defined_header sheet.now) }
{
    match Definition::new(sheet) {
        Ok(d) => {
            records::tell_fields(&d, fields);
            told::tell(header, refusal, Ok(header_numbers(&d)))
        }
        Err(reason) => {
            *fields = [[0; 14]; 64];
            told::tell(header, refusal, Err(reason))
        }
    }
}

// The three length slots.
#[unsafe(no_mangle)]
pub extern "C" fn pktfmt_lengths(
    sheet: &[u8],
    lengths: &mut [[u64; 5]; 3],
    refusal: &mut [u64; 3],
) -> bool
    ensures { Told no_lengths (λ _. length_rows sheet.now) (definition_check sheet.now) lengths.new refusal.old refusal.new result }
{
    match Definition::new(sheet) {
        Ok(d) => {
            lengths::tell_lengths(&d, lengths);
            true
        }
        Err(reason) => {
            *lengths = [[0; 5]; 3];
            told::tell_refusal(refusal, reason)
        }
    }
}

// All conditions, with their ranges.
#[unsafe(no_mangle)]
pub extern "C" fn pktfmt_conditions(
    sheet: &[u8],
    conditions: &mut [[[u64; 2]; 25]; 8],
    refusal: &mut [u64; 3],
) -> bool
    ensures { Told no_conds (λ _. cond_rows sheet.now) (definition_check sheet.now) conditions.new refusal.old refusal.new result }
{
    match Definition::new(sheet) {
        Ok(d) => {
            conditions::tell_conditions(&d, conditions);
            true
        }
        Err(reason) => {
            *conditions = [[[0; 2]; 25]; 8];
            told::tell_refusal(refusal, reason)
        }
    }
}

// The template in front of the buffer; or the refusal, room 1 included, and the buffer as it was.
#[unsafe(no_mangle)]
pub extern "C" fn pktfmt_template(sheet: &[u8], buf: &mut [u8], refusal: &mut [u64; 3]) -> bool
    ensures answered { Answered (template_check sheet.now (length buf.old)) refusal.old refusal.new result }
    ensures buf_after { buf.new ≡ template_after sheet.now buf.old }
{
    told::tell_verdict(refusal, template::build_header_template(sheet, buf))
}

// The number that field i holds.
#[unsafe(no_mangle)]
pub extern "C" fn pktfmt_read_number(
    sheet: &[u8],
    i: usize,
    buf: &[u8],
    value: &mut [u64; 1],
    refusal: &mut [u64; 3],
) -> bool
    ensures { Told (zeros 1) value_numbers (sheet_read sheet.now buf.now false i) value.new refusal.old refusal.new result }
{
    match access::locate(sheet, i) {
        Ok(p) => locators::read_any(&locators::locator_numbers(p), buf, value, refusal),
        Err(reason) => told::tell(value, refusal, Err(reason)),
    }
}

// Where in the buffer the bytes of field i stand.
#[unsafe(no_mangle)]
pub extern "C" fn pktfmt_read_bytes(
    sheet: &[u8],
    i: usize,
    buf: &[u8],
    bytes: &mut [u64; 2],
    refusal: &mut [u64; 3],
) -> bool
    ensures { Told (zeros 2) (λ _. span_numbers (locator_of sheet.now i)) (sheet_reach sheet.now (length buf.now) true i) bytes.new refusal.old refusal.new result }
{
    match access::locate(sheet, i) {
        Ok(p) => told::tell(bytes, refusal, locators::span(p, buf)),
        Err(reason) => told::tell(bytes, refusal, Err(reason)),
    }
}

// Writes a number to field i, and changes no other bit; a refusal changes nothing.
#[unsafe(no_mangle)]
pub extern "C" fn pktfmt_write_number(
    sheet: &[u8],
    i: usize,
    buf: &mut [u8],
    value: u64,
    refusal: &mut [u64; 3],
) -> bool
    ensures answered { Answered (sheet_write_check sheet.now (length buf.old) (write i (a_number value))) refusal.old refusal.new result }
    ensures buf_after { buf.new ≡ sheet_apply sheet.now buf.old (write i (a_number value)) }
{
    match access::locate(sheet, i) {
        Ok(p) => locators::write_any(&locators::locator_numbers(p), buf, value, refusal),
        Err(reason) => told::tell_refusal(refusal, reason),
    }
}

// Writes bytes to field i, and changes no other bit; a refusal changes nothing.
#[unsafe(no_mangle)]
pub extern "C" fn pktfmt_write_bytes(
    sheet: &[u8],
    i: usize,
    buf: &mut [u8],
    bytes: &[u8],
    refusal: &mut [u64; 3],
) -> bool
    ensures answered { Answered (sheet_write_check sheet.now (length buf.old) (write i (some_bytes bytes.now))) refusal.old refusal.new result }
    ensures buf_after { buf.new ≡ sheet_apply sheet.now buf.old (write i (some_bytes bytes.now)) }
{
    told::tell_verdict(refusal, access::write_bytes(sheet, buf, i, bytes))
}

// The lister's text, from the front of the buffer on, as far as there is room: how many bytes it has in all.
#[unsafe(no_mangle)]
pub extern "C" fn pktfmt_list(sheet: &[u8], out: &mut [u8]) -> usize
    ensures { ListedFront sheet.now out.old out.new result }
{
    let n = listing::list(sheet, out);
    if n < out.len() {
        return n;
    }
    let mut whole = [0u8; TEXT];
    listing::list(sheet, &mut whole)
}

// ---- at a locator

// The number that is held there.
#[unsafe(no_mangle)]
pub extern "C" fn pktfmt_read_number_at(
    at: &[u64; 6],
    buf: &[u8],
    value: &mut [u64; 1],
    refusal: &mut [u64; 3],
) -> bool
    ensures { Told (zeros 1) value_numbers (read_at (locator_from at.now) buf.now false) value.new refusal.old refusal.new result }
{
    match locators::locator_from(at).read_at_once(buf) {
        Some(v) => {
            *value = [v];
            true
        }
        // the buffer as a slice anew: one that was kept for this would be stored by every read
        None => locators::read_any(at, &buf[0..], value, refusal),
    }
}

// Where in the buffer the bytes stand that are held there.
#[unsafe(no_mangle)]
pub extern "C" fn pktfmt_read_bytes_at(
    at: &[u64; 6],
    buf: &[u8],
    bytes: &mut [u64; 2],
    refusal: &mut [u64; 3],
) -> bool
    ensures { Told (zeros 2) (λ _. span_numbers (locator_from at.now)) (reach_at (locator_from at.now) (length buf.now) true) bytes.new refusal.old refusal.new result }
{
    told::tell(
        bytes,
        refusal,
        locators::span(locators::locator_from(at), buf),
    )
}

// Writes a number there, and changes no other bit; a refusal changes nothing.
#[unsafe(no_mangle)]
pub extern "C" fn pktfmt_write_number_at(
    at: &[u64; 6],
    buf: &mut [u8],
    value: u64,
    refusal: &mut [u64; 3],
) -> bool
    ensures answered { Answered (write_check_at (locator_from at.now) (length buf.old) (a_number value)) refusal.old refusal.new result }
    ensures buf_after { buf.new ≡ apply_at (locator_from at.now) buf.old (a_number value) }
{
    if locators::locator_from(at).write_at_once(buf, value) {
        return true;
    }
    locators::write_any(at, buf, value, refusal)
}

// Writes bytes there, and changes no other bit; a refusal changes nothing.
#[unsafe(no_mangle)]
pub extern "C" fn pktfmt_write_bytes_at(
    at: &[u64; 6],
    buf: &mut [u8],
    bytes: &[u8],
    refusal: &mut [u64; 3],
) -> bool
    ensures answered { Answered (write_check_at (locator_from at.now) (length buf.old) (some_bytes bytes.now)) refusal.old refusal.new result }
    ensures buf_after { buf.new ≡ apply_at (locator_from at.now) buf.old (some_bytes bytes.now) }
{
    let written = locators::locator_from(at).write_bytes(buf, bytes);
    told::tell_verdict(refusal, written)
}

// ---- by a length

// The length of a value; true where there is one.
#[unsafe(no_mangle)]
pub extern "C" fn pktfmt_forward(length: &[u64; 5], x: u64, y: &mut [u64; 1]) -> bool
    ensures { Found (forward_by length.now x) y.new result }
{
    told::tell_found(y, lengths::forward(length, x))
}

// The value whose length this is; true where there is one.
#[unsafe(no_mangle)]
pub extern "C" fn pktfmt_back(length: &[u64; 5], y: u64, x: &mut [u64; 1]) -> bool
    ensures { Found (back_by length.now y) x.new result }
{
    told::tell_found(x, lengths::back(length, y))
}
