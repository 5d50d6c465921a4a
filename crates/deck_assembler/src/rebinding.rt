//! Whether a statement is bound otherwise than in the deck that its deck was edited from: whether
//! one of the elements that coding reads has another value there, or a block that stands elsewhere.
ghost use Rattle.std.specs.Prelude.{◌≡◌, Some, not, flat_map, option_map};
ghost use Rattle.std.specs.List.{list_any};
ghost use Rattle.definitions.specs.Expressions.{ASymbol, ALiteral, elements_of};
ghost use Rattle.definitions.specs.Forms.{Added, Subtracted};
ghost use Rattle.definitions.specs.Laws.Rebound.{datum_elements, name_elements, part_base, relocation_base, same_form, same_part, same_value, value_elements};
ghost use Rattle.definitions.specs.Operations as op;
ghost use Rattle.expr_forms.specs.Joins.Elements.{element_as, literal_as};
ghost use Rattle.expr_forms.specs.Joins.FormsAs.{part_as, relocation_as};
ghost use Rattle.expr_forms.specs.Joins.Readings.{bit_field_as, datum_as};
ghost use Rattle.operations.specs.Joins.OperationsAs.{operation_as};
ghost use Rattle.deck_assembler.specs.Joins.Rebindings.{bit_elements, context_at, differs, reading_elements, shape_elements};

use crate::deck_view::literal_form;
use crate::symbol_table::SymbolTable;
use definitions::Letter;
use expr_forms::{
    BitField, BitFields, ConWords, DataWords, Datum, Element, Expr, Field, Form, LinkedNames,
    Literal, Part, Relocation,
};
use operations::Operation;
use statement_coder::{ReadOperand, Reading};
use use_blocks::{Bases, Literals};

/// What names mean in a deck: the values of its symbols, its literals, and where its blocks stand.
#[derive(Clone, Copy)]
pub(crate) struct Bindings<'a> {
    pub(crate) symbols: &'a SymbolTable,
    pub(crate) literals: &'a Literals,
    pub(crate) bases: &'a Bases,
}

/// What a statement sees in the deck before an edit and in the one after it; its two counters are
/// the same in both.
#[derive(Clone, Copy)]
pub(crate) struct Rebinding<'a> {
    pub(crate) old: Bindings<'a>,
    pub(crate) new: Bindings<'a>,
    pub(crate) location: Form,
    pub(crate) origin: Form,
}

/// Where a relocation stands; an external stands nowhere before the link.
fn relocation_base(bases: &Bases, relocation: &Relocation) -> u64
    ensures { result ≡ relocation_base bases.now (relocation_as relocation.now) }
{
    match relocation {
        Relocation::Block(name) => bases.base(name),
        Relocation::External(_) => 0,
    }
}

/// Where the block of a part stands, if it has one.
fn part_base(bases: &Bases, part: Option<Part>) -> u64
    ensures { result ≡ part_base bases.now (option_map part_as part) }
{
    match part {
        None => 0,
        Some(Part::Added(relocation)) => relocation_base(bases, &relocation),
        Some(Part::Subtracted(relocation)) => relocation_base(bases, &relocation),
    }
}

/// Whether two parts are one.
fn same_part(first: Option<Part>, second: Option<Part>) -> bool
    ensures { result ≡ same_part (option_map part_as first) (option_map part_as second) }
{
    match first {
        None => second.is_none(),
        Some(Part::Added(first)) => is_added(&first, second),
        Some(Part::Subtracted(first)) => is_subtracted(&first, second),
    }
}

/// Whether a part is this relocation, added.
fn is_added(first: &Relocation, part: Option<Part>) -> bool
    ensures { result ≡ same_part (Some (Added (relocation_as first.now))) (option_map part_as part) }
{
    match part {
        Some(Part::Added(second)) => first.is_same(&second),
        Some(Part::Subtracted(_)) => false,
        None => false,
    }
}

/// Whether a part is this relocation, subtracted.
fn is_subtracted(first: &Relocation, part: Option<Part>) -> bool
    ensures { result ≡ same_part (Some (Subtracted (relocation_as first.now))) (option_map part_as part) }
{
    match part {
        Some(Part::Subtracted(second)) => first.is_same(&second),
        Some(Part::Added(_)) => false,
        None => false,
    }
}

impl Rebinding<'_> {
    /// Whether two forms are one, whose block stands where it stood.
    fn same_form(&self, old: Form, new: Form) -> bool
        ensures { result ≡ same_form (context_at self.now.old.bases.now) (context_at self.now.new.bases.now) old new }
    {
        let same = same_part(old.part(), new.part());
        let here = part_base(self.old.bases, old.part());
        let there = part_base(self.new.bases, new.part());
        old.number() == new.number() && (same && here == there)
    }

    /// Whether two values of an element are not one.
    fn values_differ(&self, old: Result<Form, Letter>, new: Result<Form, Letter>) -> bool
        ensures { result ≡ not (same_value (context_at self.now.old.bases.now) (context_at self.now.new.bases.now) old new) }
    {
        match old {
            Ok(old) => match new {
                Ok(new) => !self.same_form(old, new),
                Err(_) => true,
            },
            Err(_) => new.is_ok(),
        }
    }

    /// Whether a symbol has another value.
    fn symbol_differs(&self, name: &[u8]) -> bool
        ensures { result ≡ differs self.now (ASymbol name.now) }
    {
        let new = self.new.symbols.value(name);
        match self.old.symbols.value(name) {
            Some(old) => match new {
                Some(new) => !self.same_form(old, new),
                None => true,
            },
            None => new.is_some(),
        }
    }

    /// Whether a literal stands elsewhere.
    fn literal_differs(&self, literal: Literal<'_>) -> bool
        ensures { result ≡ differs self.now (ALiteral (literal_as literal.entry)) }
    {
        let old = literal_form(self.old.literals, literal);
        self.values_differ(old, literal_form(self.new.literals, literal))
    }

    /// Whether an element has another value.
    fn element_differs(&self, element: Element<'_>) -> bool
        ensures { result ≡ differs self.now (element_as element.entry) }
    {
        match element {
            Element::Symbol(name) => self.symbol_differs(name),
            Element::Literal(literal) => self.literal_differs(literal),
            Element::LocationCounter => !self.same_form(self.location, self.location),
            Element::OriginCounter => !self.same_form(self.origin, self.origin),
            Element::Number(_) => false,
            Element::Item(_) => false,
            Element::Register(_) => false,
        }
    }

    /// Whether an element of an expression has another value.
    fn expression_differs(&self, expression: &Expr<'_>) -> bool
        ensures { result ≡ list_any (differs self.now) (elements_of expression.now) }
    {
        let mut links = expression.links();
        'links: loop {
            match links.next() {
                None => return false,
                Some(link) => {
                    if self.element_differs(link.element) {
                        return true;
                    }
                }
            }
        }
    }

    /// Whether one of what stands behind the digits of an instruction has another value.
    fn field_differs(&self, field: &Field<'_>) -> bool
        ensures { result ≡ list_any (differs self.now) (shape_elements field.now) }
    {
        match field {
            Field::Absent => false,
            Field::Zero => false,
            Field::Address(value) => self.expression_differs(value),
            Field::Count(value) => self.expression_differs(value),
            Field::Short(value) => self.expression_differs(value),
            Field::Shift(value) => self.expression_differs(value),
            Field::Wide(value) => self.expression_differs(value),
            Field::Displacement(value) => {
                self.element_differs(Element::LocationCounter) || self.expression_differs(value)
            }
            Field::Long(value, second) => {
                self.expression_differs(value) || self.second_differs(&second.expression())
            }
        }
    }

    /// Whether d of an instruction has another value, where it is written.
    fn second_differs(&self, second: &Option<Expr<'_>>) -> bool
        ensures { result ≡ list_any (differs self.now) (value_elements second.now) }
    {
        match second {
            Some(value) => self.expression_differs(value),
            None => false,
        }
    }

    /// Whether a word of CON or DATA has another value.
    fn datum_differs(&self, datum: &Datum<'_>) -> bool
        ensures { result ≡ list_any (differs self.now) (datum_elements (datum_as datum.now)) }
    {
        match datum {
            Datum::Expression(value) => self.expression_differs(value),
            Datum::Zero => false,
            Datum::Number(_, _) => false,
            Datum::Item(_) => false,
        }
    }

    /// Whether a word of a CON has another value.
    fn con_differs(&self, words: ConWords<'_>) -> bool
        ensures { result ≡ list_any (differs self.now) (flat_map datum_elements words.entry) }
    {
        let mut rest = words;
        'words: loop {
            match rest.next() {
                None => return false,
                Some(datum) => {
                    if self.datum_differs(&datum) {
                        return true;
                    }
                }
            }
        }
    }

    /// Whether a word of a DATA has another value.
    fn data_differ(&self, words: DataWords<'_>) -> bool
        ensures { result ≡ list_any (differs self.now) (flat_map datum_elements words.entry) }
    {
        let mut rest = words;
        'words: loop {
            match rest.next() {
                None => return false,
                Some(datum) => {
                    if self.datum_differs(&datum) {
                        return true;
                    }
                }
            }
        }
    }

    /// Whether a field of a VFD has another value.
    fn bit_field_differs(&self, field: &BitField<'_>) -> bool
        ensures { result ≡ list_any (differs self.now) (bit_elements (bit_field_as field.now)) }
    {
        self.second_differs(&field.value)
    }

    /// Whether one of the fields of a VFD has another value.
    fn vfd_differs(&self, fields: BitFields<'_>) -> bool
        ensures { result ≡ list_any (differs self.now) (flat_map bit_elements fields.entry) }
    {
        let mut rest = fields;
        'fields: loop {
            match rest.next() {
                None => return false,
                Some(field) => {
                    if self.bit_field_differs(&field) {
                        return true;
                    }
                }
            }
        }
    }

    /// Whether a name of an ENTRY has another value.
    fn entry_differs(&self, names: LinkedNames<'_>) -> bool
        ensures { result ≡ list_any (differs self.now) (name_elements op.Entry names.entry) }
    {
        let mut rest = names;
        'names: loop {
            match rest.next() {
                None => return false,
                Some(None) => {}
                Some(Some(name)) => {
                    if self.symbol_differs(name) {
                        return true;
                    }
                }
            }
        }
    }

    /// Whether a name of a statement that has names has another value: ENTRY alone reads them.
    fn names_differ(&self, operation: Operation, names: LinkedNames<'_>) -> bool
        ensures { result ≡ list_any (differs self.now) (name_elements (operation_as operation) names.entry) }
    {
        match operation {
            Operation::Entry => self.entry_differs(names),
            _ => false,
        }
    }

    /// Whether one of what coding reads in an operand has another value.
    pub(crate) fn differs(&self, read: &ReadOperand<'_>) -> bool
        ensures { result ≡ list_any (differs self.now) (reading_elements (operation_as read.now.operation) read.now.reading) }
    {
        match &read.reading {
            Reading::Instruction(shape) => self.field_differs(&shape.field),
            Reading::Data(words) => self.data_differ(words.copied()),
            Reading::Con(words) => self.con_differs(words.copied()),
            Reading::Vfd(fields) => self.vfd_differs(fields.copied()),
            Reading::Names(names) => self.names_differ(read.operation, names.copied()),
            Reading::Unread => false,
            Reading::Bad => false,
            Reading::Text(_) => false,
            Reading::Value(_) => false,
            Reading::Use(_) => false,
        }
    }
}
