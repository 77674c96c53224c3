//! The library `qelib1.inc`, as rows of calls.

ghost use Rattle.std.specs.Prelude.{◌≡◌, MatchOption, slice_get, Some, None};
ghost use Rattle.gate_names.specs.Library.{library};
ghost use Rattle.gate_names.specs.LibraryRows.{gate_of};

use crate::gates::{CONTROLLED_NOT, UNIVERSAL};
use Angles::{NoAngle, OneAngle, ThreeAngles, TwoAngles};
use Qubits::{On, OnThree, OnTwo};
use Turn::{
    Half, HalfDifference, HalfSum, MinusHalf, MinusHalfSum, MinusPiOver, Param, Pi, PiOver, Zero,
};

/// An angle of a call, in the parameters of the gate that calls.
#[derive(Clone, Copy)]
pub enum Turn {
    Zero,
    Pi,
    Param(usize),
    PiOver(u64),
    MinusPiOver(u64),
    Half(usize),
    MinusHalf(usize),
    HalfSum(usize, usize),
    HalfDifference(usize, usize),
    MinusHalfSum(usize, usize),
}

/// The angles of a call.
#[derive(Clone, Copy)]
pub enum Angles {
    NoAngle,
    OneAngle(Turn),
    TwoAngles(Turn, Turn),
    ThreeAngles(Turn, Turn, Turn),
}

/// The qubits of a call, by their positions.
#[derive(Clone, Copy)]
pub enum Qubits {
    On(usize),
    OnTwo(usize, usize),
    OnThree(usize, usize, usize),
}

/// A call of a gate by its number.
#[derive(Clone, Copy)]
pub struct Call(pub usize, pub Angles, pub Qubits);

/// A gate of the library.
#[derive(Clone, Copy)]
pub struct Row {
    pub name: &'static [u8],
    pub params: usize,
    pub qubits: usize,
    pub calls: &'static [Call],
}

const U3: usize = 2;

const U2: usize = 3;

const U1: usize = 4;

const CX: usize = 5;

const P: usize = 8;

const X: usize = 9;

const H: usize = 12;

const S: usize = 13;

const SDG: usize = 14;

const T: usize = 15;

const TDG: usize = 16;

const RY: usize = 20;

const RZ: usize = 21;

const CCX: usize = 26;

/// The gate of that place in the library.
pub fn row_at(place: usize) -> Option<Row>
    ensures { MatchOption result (slice_get library place ≡ None)
        (λ row. slice_get library place ≡ Some (gate_of row)) }
{
    Some(match place {
        0 => Row {
            name: b"u3",
            params: 3,
            qubits: 1,
            calls: &[Call(UNIVERSAL, ThreeAngles(Param(0), Param(1), Param(2)), On(0))],
        },
        1 => Row {
            name: b"u2",
            params: 2,
            qubits: 1,
            calls: &[Call(UNIVERSAL, ThreeAngles(PiOver(2), Param(0), Param(1)), On(0))],
        },
        2 => Row {
            name: b"u1",
            params: 1,
            qubits: 1,
            calls: &[Call(UNIVERSAL, ThreeAngles(Zero, Zero, Param(0)), On(0))],
        },
        3 => Row {
            name: b"cx",
            params: 0,
            qubits: 2,
            calls: &[Call(CONTROLLED_NOT, NoAngle, OnTwo(0, 1))],
        },
        4 => Row {
            name: b"id",
            params: 0,
            qubits: 1,
            calls: &[Call(UNIVERSAL, ThreeAngles(Zero, Zero, Zero), On(0))],
        },
        5 => Row {
            name: b"u",
            params: 3,
            qubits: 1,
            calls: &[Call(UNIVERSAL, ThreeAngles(Param(0), Param(1), Param(2)), On(0))],
        },
        6 => Row {
            name: b"p",
            params: 1,
            qubits: 1,
            calls: &[Call(UNIVERSAL, ThreeAngles(Zero, Zero, Param(0)), On(0))],
        },
        7 => Row {
            name: b"x",
            params: 0,
            qubits: 1,
            calls: &[Call(U3, ThreeAngles(Pi, Zero, Pi), On(0))],
        },
        8 => Row {
            name: b"y",
            params: 0,
            qubits: 1,
            calls: &[Call(U3, ThreeAngles(Pi, PiOver(2), PiOver(2)), On(0))],
        },
        9 => Row {
            name: b"z",
            params: 0,
            qubits: 1,
            calls: &[Call(U1, OneAngle(Pi), On(0))],
        },
        10 => Row {
            name: b"h",
            params: 0,
            qubits: 1,
            calls: &[Call(U2, TwoAngles(Zero, Pi), On(0))],
        },
        11 => Row {
            name: b"s",
            params: 0,
            qubits: 1,
            calls: &[Call(U1, OneAngle(PiOver(2)), On(0))],
        },
        12 => Row {
            name: b"sdg",
            params: 0,
            qubits: 1,
            calls: &[Call(U1, OneAngle(MinusPiOver(2)), On(0))],
        },
        13 => Row {
            name: b"t",
            params: 0,
            qubits: 1,
            calls: &[Call(U1, OneAngle(PiOver(4)), On(0))],
        },
        14 => Row {
            name: b"tdg",
            params: 0,
            qubits: 1,
            calls: &[Call(U1, OneAngle(MinusPiOver(4)), On(0))],
        },
        15 => Row {
            name: b"sx",
            params: 0,
            qubits: 1,
            calls: &[
                Call(SDG, NoAngle, On(0)),
                Call(H, NoAngle, On(0)),
                Call(SDG, NoAngle, On(0)),
            ],
        },
        16 => Row {
            name: b"sxdg",
            params: 0,
            qubits: 1,
            calls: &[
                Call(S, NoAngle, On(0)),
                Call(H, NoAngle, On(0)),
                Call(S, NoAngle, On(0)),
            ],
        },
        17 => Row {
            name: b"rx",
            params: 1,
            qubits: 1,
            calls: &[Call(U3, ThreeAngles(Param(0), MinusPiOver(2), PiOver(2)), On(0))],
        },
        18 => Row {
            name: b"ry",
            params: 1,
            qubits: 1,
            calls: &[Call(U3, ThreeAngles(Param(0), Zero, Zero), On(0))],
        },
        19 => Row {
            name: b"rz",
            params: 1,
            qubits: 1,
            calls: &[Call(U1, OneAngle(Param(0)), On(0))],
        },
        20 => Row {
            name: b"cz",
            params: 0,
            qubits: 2,
            calls: &[
                Call(H, NoAngle, On(1)),
                Call(CX, NoAngle, OnTwo(0, 1)),
                Call(H, NoAngle, On(1)),
            ],
        },
        21 => Row {
            name: b"cy",
            params: 0,
            qubits: 2,
            calls: &[
                Call(SDG, NoAngle, On(1)),
                Call(CX, NoAngle, OnTwo(0, 1)),
                Call(S, NoAngle, On(1)),
            ],
        },
        22 => Row {
            name: b"ch",
            params: 0,
            qubits: 2,
            calls: &[
                Call(H, NoAngle, On(1)),
                Call(SDG, NoAngle, On(1)),
                Call(CX, NoAngle, OnTwo(0, 1)),
                Call(H, NoAngle, On(1)),
                Call(T, NoAngle, On(1)),
                Call(CX, NoAngle, OnTwo(0, 1)),
                Call(T, NoAngle, On(1)),
                Call(H, NoAngle, On(1)),
                Call(S, NoAngle, On(1)),
                Call(X, NoAngle, On(1)),
                Call(S, NoAngle, On(0)),
            ],
        },
        23 => Row {
            name: b"swap",
            params: 0,
            qubits: 2,
            calls: &[
                Call(CX, NoAngle, OnTwo(0, 1)),
                Call(CX, NoAngle, OnTwo(1, 0)),
                Call(CX, NoAngle, OnTwo(0, 1)),
            ],
        },
        24 => Row {
            name: b"ccx",
            params: 0,
            qubits: 3,
            calls: &[
                Call(H, NoAngle, On(2)),
                Call(CX, NoAngle, OnTwo(1, 2)),
                Call(TDG, NoAngle, On(2)),
                Call(CX, NoAngle, OnTwo(0, 2)),
                Call(T, NoAngle, On(2)),
                Call(CX, NoAngle, OnTwo(1, 2)),
                Call(TDG, NoAngle, On(2)),
                Call(CX, NoAngle, OnTwo(0, 2)),
                Call(T, NoAngle, On(1)),
                Call(T, NoAngle, On(2)),
                Call(H, NoAngle, On(2)),
                Call(CX, NoAngle, OnTwo(0, 1)),
                Call(T, NoAngle, On(0)),
                Call(TDG, NoAngle, On(1)),
                Call(CX, NoAngle, OnTwo(0, 1)),
            ],
        },
        25 => Row {
            name: b"cswap",
            params: 0,
            qubits: 3,
            calls: &[
                Call(CX, NoAngle, OnTwo(2, 1)),
                Call(CCX, NoAngle, OnThree(0, 1, 2)),
                Call(CX, NoAngle, OnTwo(2, 1)),
            ],
        },
        26 => Row {
            name: b"crx",
            params: 1,
            qubits: 2,
            calls: &[
                Call(U1, OneAngle(PiOver(2)), On(1)),
                Call(CX, NoAngle, OnTwo(0, 1)),
                Call(U3, ThreeAngles(MinusHalf(0), Zero, Zero), On(1)),
                Call(CX, NoAngle, OnTwo(0, 1)),
                Call(U3, ThreeAngles(Half(0), MinusPiOver(2), Zero), On(1)),
            ],
        },
        27 => Row {
            name: b"cry",
            params: 1,
            qubits: 2,
            calls: &[
                Call(RY, OneAngle(Half(0)), On(1)),
                Call(CX, NoAngle, OnTwo(0, 1)),
                Call(RY, OneAngle(MinusHalf(0)), On(1)),
                Call(CX, NoAngle, OnTwo(0, 1)),
            ],
        },
        28 => Row {
            name: b"crz",
            params: 1,
            qubits: 2,
            calls: &[
                Call(RZ, OneAngle(Half(0)), On(1)),
                Call(CX, NoAngle, OnTwo(0, 1)),
                Call(RZ, OneAngle(MinusHalf(0)), On(1)),
                Call(CX, NoAngle, OnTwo(0, 1)),
            ],
        },
        29 => Row {
            name: b"cu1",
            params: 1,
            qubits: 2,
            calls: &[
                Call(U1, OneAngle(Half(0)), On(0)),
                Call(CX, NoAngle, OnTwo(0, 1)),
                Call(U1, OneAngle(MinusHalf(0)), On(1)),
                Call(CX, NoAngle, OnTwo(0, 1)),
                Call(U1, OneAngle(Half(0)), On(1)),
            ],
        },
        30 => Row {
            name: b"cp",
            params: 1,
            qubits: 2,
            calls: &[
                Call(P, OneAngle(Half(0)), On(0)),
                Call(CX, NoAngle, OnTwo(0, 1)),
                Call(P, OneAngle(MinusHalf(0)), On(1)),
                Call(CX, NoAngle, OnTwo(0, 1)),
                Call(P, OneAngle(Half(0)), On(1)),
            ],
        },
        31 => Row {
            name: b"cu3",
            params: 3,
            qubits: 2,
            calls: &[
                Call(U1, OneAngle(HalfSum(2, 1)), On(0)),
                Call(U1, OneAngle(HalfDifference(2, 1)), On(1)),
                Call(CX, NoAngle, OnTwo(0, 1)),
                Call(
                    U3,
                    ThreeAngles(MinusHalf(0), Zero, MinusHalfSum(1, 2)),
                    On(1),
                ),
                Call(CX, NoAngle, OnTwo(0, 1)),
                Call(U3, ThreeAngles(Half(0), Param(1), Zero), On(1)),
            ],
        },
        32 => Row {
            name: b"rxx",
            params: 1,
            qubits: 2,
            calls: &[
                Call(H, NoAngle, On(0)),
                Call(H, NoAngle, On(1)),
                Call(CX, NoAngle, OnTwo(0, 1)),
                Call(RZ, OneAngle(Param(0)), On(1)),
                Call(CX, NoAngle, OnTwo(0, 1)),
                Call(H, NoAngle, On(1)),
                Call(H, NoAngle, On(0)),
            ],
        },
        33 => Row {
            name: b"rzz",
            params: 1,
            qubits: 2,
            calls: &[
                Call(CX, NoAngle, OnTwo(0, 1)),
                Call(RZ, OneAngle(Param(0)), On(1)),
                Call(CX, NoAngle, OnTwo(0, 1)),
            ],
        },
        _ => return None,
    })
}
