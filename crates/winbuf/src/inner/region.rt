// Question 13 of a strided region.
ghost use Rattle.std.specs.Prelude.{◌≡◌};
ghost use Rattle.winbuf.specs.Pixels.{region_fits};

// A quotient decides where the region ends: with any stride, the products of the rule may not fit 64 bits.
pub fn region_fits(total: usize, stride: usize, x: u32, y: u32, w: u32, h: u32) -> bool
    ensures { result ≡ region_fits total stride x y w h }
{
    if h == 0 || stride < w as usize {
        return false;
    }
    let columns = x as usize + w as usize;
    if total < columns {
        return false;
    }
    let rows = y as usize + (h as usize - 1);
    rows == 0 || stride <= (total - columns) / rows
}
