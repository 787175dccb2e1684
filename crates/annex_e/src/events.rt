// The programmes that the annex's recorders are set to. Those set by programme type or by no-specific-value are not
// here: the desk selects by CNI and PIL.
use crate::rows::{DECEMBER, JULY, OCTOBER, OFF};

#[derive(Clone, Copy)]
pub(crate) struct Sequence {
    pub(crate) number: u8,
    pub(crate) month: u8,
    pub(crate) cni: u16,
    // One for each slot of the desk, from the lowest on: recorder_day_hhmm, or OFF.
    pub(crate) events: [u32; 5],
}

// The annex names the stations and gives no CNI: any three numbers serve.
const BBC1: u16 = 0x2C01;

const ITV1: u16 = 0x2C02;

const CHL4: u16 = 0x2C03;

// One recorder, in an event.
pub(crate) const RECORDER: u32 = 1_000_000;

// Minutes. The annex gives one event a stop time, 16:35 to the first of sequence 11, and no other; for the others those are taken of the
// one programme that goes off air with no label after it, 15:59 of the same sequence.
const STOPPED: u16 = 35;

const UNSTOPPED: u16 = 20;

pub(crate) fn length_of(sequence: u8, event: u32) -> u16 {
    if sequence == 11 && event == 1_02_1600 {
        return STOPPED;
    }
    UNSTOPPED
}

pub(crate) const SEQUENCES: [Sequence; 13] = [
    Sequence {
        number: 1,
        month: JULY,
        cni: BBC1,
        events: [1_01_1840, 1_01_1945, 2_01_1915, OFF, OFF],
    },
    Sequence {
        number: 2,
        month: JULY,
        cni: BBC1,
        events: [1_01_1840, 1_01_1945, 2_01_1915, OFF, OFF],
    },
    Sequence {
        number: 3,
        month: JULY,
        cni: ITV1,
        events: [1_02_1200, 2_02_1235, OFF, OFF, OFF],
    },
    Sequence {
        number: 4,
        month: JULY,
        cni: ITV1,
        events: [1_02_1200, 2_02_1235, OFF, OFF, OFF],
    },
    Sequence {
        number: 5,
        month: JULY,
        cni: ITV1,
        events: [1_02_1200, 2_02_1235, OFF, OFF, OFF],
    },
    Sequence {
        number: 6,
        month: JULY,
        cni: ITV1,
        events: [1_02_1200, 2_02_1235, OFF, OFF, OFF],
    },
    Sequence {
        number: 7,
        month: JULY,
        cni: CHL4,
        events: [1_02_1400, OFF, OFF, OFF, OFF],
    },
    Sequence {
        number: 9,
        month: JULY,
        cni: ITV1,
        events: [1_02_2100, 1_03_2001, 2_02_2059, 2_03_2230, OFF],
    },
    Sequence {
        number: 10,
        month: JULY,
        cni: ITV1,
        events: [1_17_2228, 1_17_2229, 2_18_0000, OFF, OFF],
    },
    Sequence {
        number: 11,
        month: JULY,
        cni: CHL4,
        events: [1_02_1600, 1_05_1430, 2_02_1559, 2_05_1000, OFF],
    },
    Sequence {
        number: 12,
        month: DECEMBER,
        cni: BBC1,
        events: [1_01_1330, 1_01_1440, 2_01_1510, 2_01_1600, 3_01_1400],
    },
    Sequence {
        number: 13,
        month: DECEMBER,
        cni: BBC1,
        events: [1_01_1330, 3_01_1400, OFF, OFF, OFF],
    },
    Sequence {
        number: 14,
        month: OCTOBER,
        cni: ITV1,
        events: [1_28_0159, 2_28_0200, OFF, OFF, OFF],
    },
];
