#![tactic(auto)]

ghost use Rattle.std.specs.Prelude.{◌≡◌, cond, false, ◌&&◌, ◌+◌, ◌*◌, ◌/◌, ◌<◌, ◌≤◌, ◌^◌, length, get_or, pos};
ghost use Rattle.evc_def.specs.Lists.{lidx_of};
ghost use Rattle.evc_map.specs.Maps.{units_of, most_units, unit_at, scup, word_at, words_short, mv_len, mv_at, map_short, is_present, numbers_of};

use evc_def::{Block, EvcMv, MCU, Pel, Picture, RefList, Scu, Sides};

// ---- units

// PEL2SCU: samples in units of four.
pub fn scu(samples: u32) -> Scu
    requires { samples < 2 ^ 31 }
    ensures { result.0 ≡ samples / 4 }
{
    Pel::new(samples).scu()
}

// How many units a picture of these sides has.
pub fn unit_count(pic: Sides) -> Scu
    ensures { (result.0 ≡ units_of pic.w pic.h) × (result.0 ≤ most_units) }
{
    Scu(scu(pic.w).0 * scu(pic.h).0)
}

// Of plain numbers: any unit of a picture, not a block's first alone.
pub fn unit_at(pic_w: u32, x: u32, y: u32) -> Scu
    requires { (pic_w ≤ 8128) × (x ≤ 8128) × (y ≤ 8128) }
    ensures { result.0 ≡ unit_at pic_w x y }
{
    Scu(scu(y).0 * scu(pic_w).0 + scu(x).0)
}

// The block's first unit.
pub fn first_unit(b: Block) -> Scu
    ensures { result.0 ≡ scup b.given }
{
    unit_at(b.given.pic_w, b.given.x, b.given.y)
}

// ---- unit words

// The one place where a unit word is read.
pub fn mcu_at(map_scu: &[u32], scup: Scu) -> MCU
    requires { scup.0 < length map_scu.now }
    ensures { result.0 ≡ word_at map_scu.now scup.0 }
{
    MCU(map_scu[scup.index()])
}

// As many words are too few for the picture. One function of this and of `map_short` would take how many numbers a unit has, in place of a name.
pub fn words_short(pic: Sides, words: usize) -> bool
    ensures { result ≡ words_short pic.w pic.h words }
{
    words < unit_count(pic).index()
}

// ---- motion maps

// Numbers of a unit in a motion map: list 0 x, y, list 1 x, y.
const MAP_MV_LEN: usize = 4;

// The one place where a motion map is read. A type for a map with its length as a ghost field would let no `requires` go: a read
// would still ask that the map has the unit, and the candidates that both maps are of the block's picture.
pub fn mv_at(map_mv: &[i16], scup: Scu, list: RefList) -> EvcMv
    requires { mv_len * scup.0 + mv_len ≤ length map_mv.now }
    ensures { result ≡ mv_at map_mv.now scup.0 (lidx_of list) }
{
    let across = MAP_MV_LEN * scup.index() + 2 * list as usize;
    EvcMv {
        x: map_mv[across],
        y: map_mv[across + 1],
    }
}

// A map of this length is too short for the picture.
pub fn map_short(pic: Sides, map_mv: usize) -> bool
    ensures { result ≡ map_short pic.w pic.h map_mv }
{
    map_mv < MAP_MV_LEN * unit_count(pic).index()
}

// The collocated map, where there is one.
pub fn col_short(pic: Picture, col_mv: Option<&[i16]>) -> bool
    ensures { result ≡ (is_present col_mv.entry && map_short pic.w pic.h (length (numbers_of col_mv.entry))) }
{
    match col_mv {
        Some(map) => map_short(pic.sides(), map.len()),
        None => false,
    }
}

// Its vector at the block's first unit, and another where there is no map.
pub fn col_mv_at(b: Block, col_mv: Option<&[i16]>, list: RefList, other: EvcMv) -> EvcMv
    requires { (is_present col_mv && map_short b.given.pic_w b.given.pic_h (length (numbers_of col_mv))) ≡ false }
    ensures { result ≡ cond (is_present col_mv.entry) (mv_at (numbers_of col_mv.entry) (scup b.given) (lidx_of list)) other }
{
    match col_mv {
        Some(map) => mv_at(map, first_unit(b), list),
        None => other,
    }
}
