/// The program, which is at 200h. It fills video memory and the colours with what comes after
/// 1000h, writes a byte of that to the PSG, and continues in this way to E0000h and then from 1000h again.
pub(crate) const PROGRAM: [u16; 42] = [
    0x46fc, 0x2700, // move #$2700,sr
    0x41f9, 0x00c0, 0x0004, // lea $c00004,a0: the control port
    0x43f9, 0x00c0, 0x0000, // lea $c00000,a1: the data port
    0x45f9, 0x0000, 0x1000, // lea $1000,a2
    0x30bc, 0x8f02, // move.w #$8f02,(a0): the address rises by 2
    0x30bc, 0x8174, // move.w #$8174,(a0): the display is on
    0x20bc, 0x4000, 0x0000, // move.l #$40000000,(a0): VRAM from 0 on
    0x303c, 0x7fff, // move.w #$7fff,d0
    0x329a, // move.w (a2)+,(a1)
    0x51c8, 0xfffc, // dbra d0 to the word before
    0x20bc, 0xc000, 0x0000, // move.l #$c0000000,(a0): CRAM from 0 on
    0x303c, 0x003f, // move.w #$3f,d0
    0x329a, // move.w (a2)+,(a1)
    0x51c8, 0xfffc, // dbra d0 to the word before
    0x13d2, 0x00c0, 0x0011, // move.b (a2),$c00011: the PSG
    0xb5fc, 0x000e, 0x0000, // cmpa.l #$e0000,a2
    0x65d2, // bcs to VRAM from 0 on
    0x45f9, 0x0000, 0x1000, // lea $1000,a2
    0x60ca, // bra to VRAM from 0 on
];
