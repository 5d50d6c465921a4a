//! The table of peripheral instructions, by name.
ghost use Rattle.std.specs.Prelude.{◌≡◌};
ghost use Rattle.definitions.specs.PeripheralTable.{peripheral_row};
ghost use Rattle.definitions.specs.Operations.{is_peripheral};
ghost use Rattle.ppu_opcodes.specs.Joins.PeripheralCodes.{found_row};

use crate::code::{Code, Form};

/// The code of an operation by rows of a name, two octal digits and a form.
macro_rules! code_among {
    ($operation:ident: $($name:literal $digits:literal $form:ident,)*) => {
        match $operation {
            $($name => Some(Code { digits: $digits, form: Form::$form }),)*
            _ => None,
        }
    };
}

/// The code of an operation, if the table has it (COMPASS 60492600, PPU instructions).
pub fn row_of(operation: &[u8]) -> Option<Code>
    ensures { found_row operation.now result ≡ peripheral_row operation.now }
{
    code_among![operation:
        b"ACN" 0o74 Short,
        b"ADC" 0o21 Wide,
        b"ADD" 0o31 Short,
        b"ADI" 0o41 Short,
        b"ADM" 0o51 Long,
        b"ADN" 0o16 Short,
        b"AJM" 0o64 Long,
        b"AOD" 0o36 Short,
        b"AOI" 0o46 Short,
        b"AOM" 0o56 Long,
        b"CRD" 0o60 Short,
        b"CRM" 0o61 Long,
        b"CWD" 0o62 Short,
        b"CWM" 0o63 Long,
        b"DCN" 0o75 Short,
        b"EJM" 0o67 Long,
        b"EXN" 0o26 Short,
        b"FAN" 0o76 Short,
        b"FJM" 0o66 Long,
        b"FNC" 0o77 Long,
        b"IAM" 0o71 Long,
        b"IAN" 0o70 Short,
        b"IJM" 0o65 Long,
        b"LCN" 0o15 Short,
        b"LDC" 0o20 Wide,
        b"LDD" 0o30 Short,
        b"LDI" 0o40 Short,
        b"LDM" 0o50 Long,
        b"LDN" 0o14 Short,
        b"LJM" 0o01 Long,
        b"LMC" 0o23 Wide,
        b"LMD" 0o33 Short,
        b"LMI" 0o43 Short,
        b"LMM" 0o53 Long,
        b"LMN" 0o11 Short,
        b"LPC" 0o22 Wide,
        b"LPN" 0o12 Short,
        b"MJN" 0o07 ShortJump,
        b"NJN" 0o05 ShortJump,
        b"OAM" 0o73 Long,
        b"OAN" 0o72 Short,
        b"PJN" 0o06 ShortJump,
        b"PSN" 0o00 Ignored,
        b"RAD" 0o35 Short,
        b"RAI" 0o45 Short,
        b"RAM" 0o55 Long,
        b"RJM" 0o02 Long,
        b"RPN" 0o27 Short,
        b"SBD" 0o32 Short,
        b"SBI" 0o42 Short,
        b"SBM" 0o52 Long,
        b"SBN" 0o17 Short,
        b"SCN" 0o13 Short,
        b"SHN" 0o10 Shift,
        b"SOD" 0o37 Short,
        b"SOI" 0o47 Short,
        b"SOM" 0o57 Long,
        b"STD" 0o34 Short,
        b"STI" 0o44 Short,
        b"STM" 0o54 Long,
        b"UJN" 0o03 ShortJump,
        b"ZJN" 0o04 ShortJump,
    ]
}

/// Whether the table has an operation.
pub fn is_peripheral(operation: &[u8]) -> bool
    ensures { result ≡ is_peripheral operation.now }
{
    row_of(operation).is_some()
}
