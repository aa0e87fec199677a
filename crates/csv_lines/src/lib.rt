// The lines of a sheet that a row gives (Req 01), converted, as far as the buffer reaches.
#![tactic(auto)]

ghost use Rattle.std.specs.Prelude.{◌≡◌, true, [], ◌∷◌, ◌++◌, ◌≤◌, length};
ghost use Rattle.rules.specs.declared.Name.TheVariants.{Pid, Pv1, Spm, Obr, Obx};
ghost use Rattle.rules.specs.Lists.{all};
ghost use Rattle.csv_rules.specs.Kanji.{convertible};
ghost use Rattle.csv_rules.specs.Columns.{value_by};
ghost use Rattle.csv_rows.specs.Rows.{items_of};
ghost use Rattle.csv_keys.specs.Keys.{how_of};
ghost use Rattle.csv_lines.specs.Lines.{line_by, family_and_given, group_lines, some_lines, header_lines, first_lines, next_lines};

use csv_keys::How;
use csv_rows::RowItems;

// A row whose items all convert.
#[derive(Clone, Copy)]
pub struct GoodRow<'r, 'a> {
    pub items: &'r RowItems<'a>,
    ghost converts: { all convertible (items_of items.now) ≡ true },
}

// Lines as they are written: over what is lent, as far as it reaches. The next line begins at `at`.
#[derive(Drop)]
pub struct Lines<'o> {
    pub out: &'o mut [u8],
    pub at: usize,
    ghost inside: { at ≤ length out.now },
}

impl<'o> Lines<'o> {
    ghost use Rattle.csv_lines.specs.Written.{Puts, Writes};

    // From the buffer's front on.
    pub fn new(out: &'o mut [u8]) -> Lines<'o>
        ensures front { result.at ≡ 0 }
        ensures over { result.out.now ≡ out.old }
        ensures same { result.out.ghost_name ≡ out.entry.ghost_name }
    {
        Lines { out, at: 0 }
    }

    // ---- a line

    fn put(&mut self, bytes: &[u8])
        ensures { Puts self.old self.new bytes.now }
    {
        self.at = reach::put(self.out, self.at, bytes);
    }

    // The end of a line.
    fn end(&mut self)
        ensures { Puts self.old self.new (0x0A ∷ []) }
    {
        self.at = reach::put_byte(self.out, self.at, 0x0A);
    }

    // A key's value, converted.
    fn value(&mut self, row: &GoodRow, how: How, column: usize)
        requires { (1 ≤ column) × (column ≤ 45) }
        ensures { Puts self.old self.new (value_by (how_of how) (items_of row.now.items.now) column) }
    {
        let key = csv_keys::key(row.items, how, column);
        self.put(key.lead);
        self.at = sjis::put_converted(self.out, self.at, key.raw);
    }

    // The line of a key with `=`: its value is the one that a column feeds.
    fn line(&mut self, key: &[u8], row: &GoodRow, how: How, column: usize)
        requires { (1 ≤ column) × (column ≤ 45) }
        ensures { Writes self.old self.new (line_by key.now how (items_of row.now.items.now) column) }
    {
        self.put(key);
        self.value(row, how, column);
        self.end();
    }

    // A line whose value is written as it is.
    fn plain_line(&mut self, key: &[u8], value: &[u8])
        ensures { Writes self.old self.new ((key.now ++ value.now) ∷ []) }
    {
        self.put(key);
        self.put(value);
        self.end();
    }

    // ---- the groups

    // "the caller gives the values of keys without a column"
    pub fn header(&mut self, mode: &[u8], sent: &[u8], control: &[u8])
        ensures { Writes self.old self.new (header_lines mode.now sent.now control.now) }
    {
        self.plain_line(b"version=", b"1");
        self.plain_line(b"mode=", mode);
        self.plain_line(b"sent=", sent);
        self.plain_line(b"control=", control);
    }

    fn patient(&mut self, row: &GoodRow)
        ensures { Writes self.old self.new (group_lines Pid (items_of row.now.items.now)) }
    {
        self.line(b"patient=", row, How::Text, 8);
        self.name(b"family=", b"given=", row, 9);
        self.name(b"kanafamily=", b"kanagiven=", row, 10);
        self.birth(row);
    }

    // The two lines of a name.
    fn name(&mut self, family: &[u8], given: &[u8], row: &GoodRow, column: usize)
        requires { (1 ≤ column) × (column ≤ 45) }
        ensures { Writes self.old self.new (family_and_given family.now given.now (items_of row.now.items.now) column) }
    {
        self.line(family, row, How::UpToBlank, column);
        self.line(given, row, How::PastBlank, column);
    }

    // birth and sex.
    fn birth(&mut self, row: &GoodRow)
        ensures { Writes self.old self.new (some_lines Pid 5 2 (items_of row.now.items.now)) }
    {
        self.line(b"birth=", row, How::Text, 11);
        self.line(b"sex=", row, How::Sex, 12);
    }

    fn visit(&mut self, row: &GoodRow)
        ensures { Writes self.old self.new (group_lines Pv1 (items_of row.now.items.now)) }
    {
        self.line(b"class=", row, How::Class, 21);
    }

    fn specimen(&mut self, row: &GoodRow)
        ensures { Writes self.old self.new (group_lines Spm (items_of row.now.items.now)) }
    {
        self.line(b"specimen=", row, How::Text, 25);
        self.line(b"collected=", row, How::Text, 24);
    }

    fn order(&mut self, row: &GoodRow)
        ensures { Writes self.old self.new (group_lines Obr (items_of row.now.items.now)) }
    {
        self.line(b"order=", row, How::Fifteen, 20);
        self.line(b"group=", row, How::Text, 30);
    }

    fn result(&mut self, row: &GoodRow)
        ensures { Writes self.old self.new (group_lines Obx (items_of row.now.items.now)) }
    {
        self.item(row);
        self.observed(row);
        self.status(row);
    }

    // item, name and type.
    fn item(&mut self, row: &GoodRow)
        ensures { Writes self.old self.new (some_lines Obx 0 3 (items_of row.now.items.now)) }
    {
        self.line(b"item=", row, How::Text, 31);
        self.line(b"name=", row, How::Text, 29);
        self.line(b"type=", row, How::ValueType, 36);
    }

    // compare and value; join and second are blank.
    fn observed(&mut self, row: &GoodRow)
        ensures { Writes self.old self.new (some_lines Obx 3 4 (items_of row.now.items.now)) }
    {
        self.line(b"compare=", row, How::Form, 36);
        self.line(b"value=", row, How::Text, 35);
        self.put(b"join=\nsecond=\n");
    }

    // unit, flag and status.
    fn status(&mut self, row: &GoodRow)
        ensures { Writes self.old self.new (some_lines Obx 7 3 (items_of row.now.items.now)) }
    {
        self.line(b"unit=", row, How::Text, 37);
        self.line(b"flag=", row, How::Text, 41);
        self.line(b"status=", row, How::Text, 34);
    }

    // ---- the rows

    // The first row of a sheet: every group.
    pub fn first_row(&mut self, row: &GoodRow)
        ensures { Writes self.old self.new (first_lines (items_of row.now.items.now)) }
    {
        self.patient(row);
        self.visit(row);
        self.specimen(row);
        self.order(row);
        self.result(row);
    }

    // "a row whose specimen keys, or those and its order keys, equal the row before's joins that specimen or order"
    pub fn next_row(&mut self, before: &GoodRow, row: &GoodRow)
        ensures { Writes self.old self.new (next_lines (items_of before.now.items.now) (items_of row.now.items.now)) }
    {
        if !csv_keys::same_specimen(before.items, row.items) {
            self.specimen(row);
            self.order(row);
            return self.result(row);
        }
        if !csv_keys::same_order(before.items, row.items) {
            self.order(row);
            return self.result(row);
        }
        self.result(row);
    }
}
