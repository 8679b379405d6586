// A caller of the library: prints how many letters the normal form of (1, 3, -1) has under the manual's catalogue K,
// and the places of the two letters that cancelled.

#![tactic(auto)]

fn show(letters: usize, earlier: u16, later: u16) {
    io::print_decimal(1, letters as u64);
    io::write_all(1, b" letter left; these places cancelled: ");
    io::print_decimal(1, earlier as u64);
    io::write_all(1, b" ");
    io::print_decimal(1, later as u64);
    io::write_all(1, b"\n");
}

fn main() {
    let catalogue = [4u8, 3, 1, 2, 3, 0, 2, 0, 3, 0, 4, 0];
    let plan = [1u8, 3, 129];
    let mut area = [0u8; 3];
    let mut places = [0u16; 3];
    let formed = busplan::normal_form(&catalogue, &plan, &mut area, &mut places);
    if let Ok(form) = formed {
        show(form.length, places[0], places[1]);
    } else {
        io::write_all(2, b"refused\n");
    }
}
