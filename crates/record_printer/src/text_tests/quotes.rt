//! Bytes in quotes.

use super::{Call, Scene, line_of};
use crate::laws::quotes_are_one_to_one;
use crate::tests::compare::same;
use std::test::Fail;

/// All byte values, sixteen a line, as they are in quotes.
const QUOTED: [&str; 16] = [
    "\\000\\001\\002\\003\\004\\005\\006\\007\\010\\t\\n\\v\\f\\r\\016\\017",
    "\\020\\021\\022\\023\\024\\025\\026\\027\\030\\031\\032\\033\\034\\035\\036\\037",
    " !\\\"#$%&'()*+,-./",
    "0123456789:;<=>?",
    "@ABCDEFGHIJKLMNO",
    "PQRSTUVWXYZ[\\\\]^_",
    "`abcdefghijklmno",
    "pqrstuvwxyz{|}~\\177",
    "\\200\\201\\202\\203\\204\\205\\206\\207\\210\\211\\212\\213\\214\\215\\216\\217",
    "\\220\\221\\222\\223\\224\\225\\226\\227\\230\\231\\232\\233\\234\\235\\236\\237",
    "\\240\\241\\242\\243\\244\\245\\246\\247\\250\\251\\252\\253\\254\\255\\256\\257",
    "\\260\\261\\262\\263\\264\\265\\266\\267\\270\\271\\272\\273\\274\\275\\276\\277",
    "\\300\\301\\302\\303\\304\\305\\306\\307\\310\\311\\312\\313\\314\\315\\316\\317",
    "\\320\\321\\322\\323\\324\\325\\326\\327\\330\\331\\332\\333\\334\\335\\336\\337",
    "\\340\\341\\342\\343\\344\\345\\346\\347\\350\\351\\352\\353\\354\\355\\356\\357",
    "\\360\\361\\362\\363\\364\\365\\366\\367\\370\\371\\372\\373\\374\\375\\376\\377",
];

#[test]
fn all_bytes_are_quoted(rt: HostRuntime) -> Result<(), Fail> {
    let mut first = 0u8;
    for quoted in QUOTED {
        let mut bytes = [0u8; 16];
        for i in 0..16 {
            bytes[i] = first.wrapping_add(i as u8);
        }
        first = first.wrapping_add(16);
        let scene = Scene {
            pages: &[0x10000],
            stores: &[(0x10000, bytes.as_slice())],
            filled: &[],
        };
        let line = format!(in rt.alloc(); "100 write(1, \"{quoted}\", 16) = 16")?;
        let call = Call(1, [1, 0x10000, 16], 16, line.as_str());
        let made = line_of(rt.alloc(), &scene, 16, &call)?;
        same(&rt, &made.as_slice(), &line.as_bytes());
    }
    Ok(())
}

#[test]
fn the_law_of_quotes_is_there() {
    quotes_are_one_to_one();
}
