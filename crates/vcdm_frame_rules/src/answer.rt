// What an answer says. EXIT and REJECT are numbers; every other field is kept as its byte.

// What an answer says of one cassette: the notes that went out, those rejected, and the byte that names the cassette.
#[derive(Clone, Copy)]
pub struct Paid {
    pub exit: u32,
    pub rejects: u32,
    pub kind: u8,
}

#[derive(Clone, Copy)]
pub struct Cassettes {
    pub top: Paid,
    pub second: Paid,
    pub third: Paid,
    pub bottom: Paid,
}

// The nine reserved bytes behind the cassettes, in their order.
#[derive(Clone, Copy)]
pub struct Spare {
    pub a: u8,
    pub b: u8,
    pub c: u8,
    pub d: u8,
    pub e: u8,
    pub f: u8,
    pub g: u8,
    pub h: u8,
    pub i: u8,
}

// What a status says of one position: STAT, TYPE, OPAC and LENG.
#[derive(Clone, Copy)]
pub struct Place {
    pub stat: u8,
    pub kind: u8,
    pub opacity: u8,
    pub length: u8,
}

#[derive(Clone, Copy)]
pub struct Places {
    pub top: Place,
    pub second: Place,
    pub third: Place,
    pub bottom: Place,
}

// An answer of the unit.
#[derive(Clone, Copy)]
pub enum Answer {
    Reset {
        error: u8,
    },
    Status {
        error: u8,
        disp0: u8,
        disp1: u8,
        places: Places,
    },
    Purged {
        error: u8,
        miss: u8,
        cassettes: Cassettes,
        spare: Spare,
    },
    Dispensed {
        error: u8,
        serial: u8,
        cassettes: Cassettes,
        spare: Spare,
    },
    // What an earlier operation came to: its code, and what it said.
    Last {
        last: u8,
        error: u8,
        serial: u8,
        cassettes: Cassettes,
        spare: Spare,
    },
}
