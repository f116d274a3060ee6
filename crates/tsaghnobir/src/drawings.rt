// A curve as path data of SVG.
ghost use Rattle.std.specs.Prelude.{◌≡◌};
ghost use lib.ListN.{length};
ghost use Rattle.lent.specs.Lent.{after};
ghost use Rattle.curve.specs.Lists.{lists};
ghost use Rattle.svg_out.specs.Svg.{svg_text, svg_number};
ghost use Rattle.tsaghnobir.specs.Places.{placed};

use crate::places::put;

pub fn tsb_svg(
    degree: u32,
    knots: &[u16],
    xs: &[i32],
    ys: &[i32],
    out: &mut [u8],
    length: &mut usize,
) -> u32
    ensures answer { result ≡ svg_number degree (lists knots.now xs.now ys.now) out.old }
    ensures result { out.new
        ≡ after result (svg_text degree (lists knots.now xs.now ys.now)) out.old }
    ensures count { length.new
        ≡ placed result (lib.ListN.length (svg_text degree (lists knots.now xs.now ys.now))) length.old }
{
    let answer = svg_out::write_svg(degree, knots, xs, ys, out);
    put(answer, length)
}
